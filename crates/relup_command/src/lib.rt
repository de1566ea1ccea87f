//! Relups from the files of releases (OTP: systools:make_relup/3; the order of reading is this project's own).
//!
//! [`make_relup_of_files`] reads the `.rel` file of a release and the `.app` files of its applications, then those of the
//! releases that it comes from and goes back to, and last the release's appups. It answers the relup that the translation of
//! `relup_translate` gives of these, the first refusal of a file, or the fault of the appups (clauses `made`, `refused`).
//! [`relup_answer`] prints it in lines, as a session answers (`answered`): a file that says it, where its term keeps the limits of
//! a reader, and then `ok` (`read_back`).
//!
//! [`read_releases`] gives the releases alone, for other translations.
//!
//! The laws of `laws` say that releases that are read, and a relup that is made, have names and versions, whatever the files say.
//!
//! Only tested: that files are read where memory is there. Trusted: the toolchain and `thiserror`.
#![tactic(auto)]

mod answer;
mod appups;
mod error;
pub mod laws;
mod releases;
mod relup;

pub use answer::relup_answer;
pub use error::RelupError;
pub use releases::{Releases, read_releases};
pub use relup::make_relup_of_files;
