//! Tables of modules, which stand for their code: that of a worker (`worker_table`), or that of a supervisor, which has its
//! children.
//!
//! [`read_mod`] reads a `.mod` file. It gives a table exactly where the file says one (specs/File), and then that one; a
//! refusal is the file's fault, the first in the order of `FileFault`'s cases. Out of memory may come in place of any answer
//! and says nothing of the file.
//! Contracts see a `Super`, as they do a `Worker`, as its table alone (specs/Table).
//!
//! The functions of `laws` say of these definitions that each file says one table or has one fault, and not both, and that a
//! term says a table exactly where it has the form of that table (specs/Form).
//!
//! Only tested: that a file is read where memory is there. Trusted: the toolchain alone.
#![tactic(auto)]

mod child;
pub mod laws;
mod reader;
mod supervisor;
mod table;

pub use child::{Child, ChildKind, Restart};
pub use reader::{ModFile, read_mod, read_mod_file, table_of_term};
pub use supervisor::Super;
pub use table::Table;
pub use worker_table::{Old, Step, Ticks, Worker, is_same};
