//! Which instructions of an appup lead from one version to another, where an entry may be for the versions that a regular
//! expression matches (OTP: appup(4), `systools_relup`).
//!
//! [`entry_matching`] gives the instructions of the first entry whose version is equal, or whose pattern's first match in the
//! version is the whole of it (clause `found`). A refusal names the first entry without an answer, and why it has none
//! (`refused`). Patterns are those of the crate `regex`; the forms known that it and OTP's `re` both take and read in different
//! ways are refused as `Ambiguous`, by a scan of the bytes that is a definition of its own (specs/Ambiguity).
//!
//! Only tested: that other patterns mean the same to OTP's `re`, and that an entry is found where memory is there. Trusted: the
//! toolchain and the crates `regex` and `regex_syntax`.
#![tactic(auto)]

mod ambiguity;
mod fault;
mod search;

pub use fault::{MatchError, PatternFault};
pub use search::entry_matching;
