//! The terms of a text, one a line, as `erl_term` prints them.
//!
//! What [`consult`] writes is a stated function of what it reads: `Lists` in `specs/Listing.antt`. A text that is too
//! long is refused by its length, and one that is no row of terms by its fault; then nothing is written. A failed read
//! and a failed write are reported exactly where one was (`Reports` of `counted_io`), and nothing is tried again.
//! Where a write fails a prefix of the listing was written. Of a text that is too long no byte after the first too many
//! is read.
//!
//! [`ConsultError::exit_status`] is the exit status of the program `consult`.
//!
//! Only tested: that a listing is written where memory is there. Trusted: the toolchain and `thiserror`.
#![tactic(auto)]

mod error;
mod listing;
mod streams;

pub use error::ConsultError;
pub use streams::consult;
