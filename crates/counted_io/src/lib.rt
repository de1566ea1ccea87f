//! Readers and writers whose failures are counted.
//!
//! std's traits say what a read and a write do to known bytes, and nothing of when they fail. Here each failure is
//! counted: a call that fails has raised the count, and one that succeeds has not (`Counts` in `specs/Failures.antt`). So
//! a contract above can say that a failure is reported only where one was. That the count rises only where the reader
//! or the writer itself failed no clause can say: it is to be read in [`CountedReader::read`] and in
//! [`CountedWriter::write`].
//!
//! [`CountedWriter::write`] writes all bytes and flushes. Where it fails, it has written a prefix of them.
//!
//! Only tested: that a write is flushed. Trusted: the toolchain and `thiserror`.
#![tactic(auto)]

mod reader;
mod writer;

pub use reader::{CountedReader, ReadFailed};
pub use writer::{CountedWriter, WriteFailed};
