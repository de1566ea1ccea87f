//! Where the files of releases come from.
//!
//! [`Files`] is a source of files by their paths, as a session's own files or those below a folder of the host. Its member
//! `gives` says what a read of a path may give, and its clauses that a read gives that: the file's bytes, at most 1,048,576,
//! or why it isn't read. Out of memory says nothing of the file.
//!
//! Trusted: the toolchain and `thiserror`.
#![tactic(auto)]

mod files;

pub use files::{Files, FilesError};
