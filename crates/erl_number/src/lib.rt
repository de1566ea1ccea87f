//! The numbers of Erlang texts.
//!
//! `Text::of` takes bytes as far as they are UTF-8 (`sealed`, specs/Texts). `numeral_at` answers the number without a sign
//! that stands at a place of a text, with the place after it: the `numeral` of the bytes from that place on
//! (specs/Numbers), or 2^63 + 1 where that is larger. Else it answers the number's fault, or that the text ends within it.
//! A number is spelled in digits, with a base and `#` in front of them or without, or as a character after `$`, which
//! may be an escape (`escape_at`, specs/Escapes).
//! `in_range` answers a number with its sign where 64 bits hold it, and `run_end` where bytes in a row end that a token or
//! a comment goes on with.
//! The first fault of a text is a `TermFault`: it is shown by its name and its place (specs/FaultTexts).
//!
//! Only tested: texts against Erlang/OTP (docs/MEASUREMENTS.md). Trusted: the toolchain alone.
#![tactic(auto)]

mod digits;
mod escape;
mod fault;
mod number;
mod run;
mod text;

pub use escape::{Escaped, escape_at};
pub use fault::TermFault;
pub use number::{Numeral, in_range, numeral_at};
pub use run::{Run, run_end};
pub use text::{At, Text};
