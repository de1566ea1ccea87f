//! Erlang terms as text: the type, the grammar and its reader, and a printer.
//!
//! `read_terms` gives the terms of a text with their places exactly where the text reads as them by the grammar
//! (specs/Grammar), and else the text's first fault (specs/Faults), or it is out of memory. The reader is one pass over the
//! tokens, with the open brackets on a stack of its own. `read_record` gives the one term of a record's body, read with more
//! brackets (specs/OneTerm). Read are atoms, integers of 64 bits, strings, tuples, lists and binaries.
//! `print` gives the text of a term (specs/Printing), for every term. What it gives is read back as that term within the
//! limits of the reader (specs/Within).
//! The functions of `laws` say of these definitions that no text has two readings or two faults, that none both reads and
//! has a fault, and that each has one of the two; that a term is what its own bytes spell; that what is read has short
//! atoms, and at most one bracket more when it is printed (specs/Laws); and that a term is printed on one line.
//!
//! Only tested: that a text is read and a term printed where memory is there, small texts with their answers, and texts
//! against Erlang/OTP (docs/MEASUREMENTS.md). Trusted: the toolchain alone.
#![tactic(auto)]

mod character;
mod clone;
pub mod laws;
mod parser;
mod printer;
mod reader;
mod record;
mod term;

pub use clone::copy_terms;
pub use erl_number::TermFault;
pub use printer::print;
pub use reader::{MAX_DEPTH, read_terms};
pub use record::{RECORD_DEPTH, read_record};
pub use term::{Spanned, Term};
