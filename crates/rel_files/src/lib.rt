//! The files that describe a release and its applications, from their bytes to their values (OTP: rel(4), app(4)).
//!
//! [`read_rel`] reads a `.rel` file, [`read_app`] a `.app` file. Each gives a value exactly where the file says one, and then
//! that one (specs/File, specs/AppFile); a refusal is the file's fault, the first in the order of [`FileFault`]'s cases.
//! [`rel_of_term`] and [`app_of_term`] do so for a term. Out of memory may come in place of any answer and says nothing of the
//! file.
//!
//! [`read_one_term`], [`start_of`], `parts`, `text` and `duplicates` are what readers of other files of a release share, with
//! the kinds of such files (specs/Kind), and `terms` is what writers of terms share.
//!
//! The functions of `laws` and `app_laws` say that each file says one release, or one application, or has one fault, and not
//! both, and that a term says an application exactly where it has the form of that application (specs/AppForm).
//!
//! Only tested: that a file is read where memory is there. Trusted: the toolchain alone.
#![tactic(auto)]

mod app;
mod app_contents;
pub mod app_laws;
mod app_pairs;
mod app_reader;
mod draft;
pub mod duplicates;
mod ending;
mod fault;
pub mod laws;
mod one_term;
pub mod parts;
mod reader;
mod release;
pub mod terms;
pub mod text;

pub use app::App;
pub use app_reader::{app_of_term, read_app};
pub use ending::start_of;
pub use fault::FileFault;
pub use one_term::{FileTerm, read_one_term};
pub use reader::{RelFile, read_rel, read_rel_file, rel_of_term};
pub use release::{Rel, RelApp, StartType};
