//! Libraries: an application with its modules, each with its table or none (OTP: the folder of a version of an application).
//!
//! Contracts see a [`Library`] as its application and the tables of its modules, in the order of the `.app` file
//! (specs/Library). Two libraries are the same where the whole terms of their files are (`Library::is_same`).
//! [`Library::term`] makes the term by which a record carries a library, and [`library_of_term`] reads it back: it gives a
//! library exactly where the term is that of one (`SaysLibrary`), and [`libraries_of_terms`] all of a record's, which releases
//! share. Out of memory may come in place of any answer.
//!
//! The functions of `laws` say of these definitions that a term is that of one library at most, and that two libraries are
//! the same exactly where they are equal.
//!
//! Only tested: that a library is read where memory is there. Trusted: the toolchain alone.
#![tactic(auto)]

pub mod laws;
mod library;
mod record;
mod tables;

pub use library::Library;
pub use mod_table::Table;
pub use record::{libraries_of_terms, library_of_term};
pub use rel_files::App;
