//! The replacement of a file, so that its path leads to the old text or the new one, whatever stops it.
//!
//! [`replace_file`] makes a new file, writes the text, syncs the file, renames it to the path, and syncs the folder. Its
//! contract says so of every host: an Ok comes after these calls in this order (clause `replaced`), and an error after those
//! before the call that failed (`stopped`), and where that stands before the rename's end, after the new file was removed.
//!
//! The functions of `laws` say what a crash may leave then, by a model of a folder (specs/Folder): at each moment the old text or
//! the new one, and after the last call the new one.
//!
//! Only tested: what the calls do to files of the host, over a host that notes each of them. Trusted: that a host keeps its files
//! as the model says, the toolchain with its file calls, and `thiserror`.
#![tactic(auto)]

mod host;
pub mod laws;
mod replacement;

pub use host::{HostFolder, NewFiles};
pub use replacement::{ReplaceError, replace_file};
