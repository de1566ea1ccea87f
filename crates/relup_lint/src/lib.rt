//! What `systools` refuses of the instructions of appups, before they are translated (OTP: systools_rc, systools_relup).
//!
//! A script is judged as a whole, as `systools` does: the entries that a direction takes, one after another ([`push_entry`]).
//! [`findings`] gives each refusal in the order of the instructions, and [`first_finding`] the one at which `systools` stops.
//! Both equal their definitions in specs/Findings (by cases on the instruction: what is named, and what it needs). A name
//! is looked up in log n comparisons among n that are named.
//!
//! The functions of `laws` say what a script without findings has.
//!
//! Only tested: that findings are given where memory is there, and their texts. Trusted: the toolchain and `thiserror`.
#![tactic(auto)]

mod index;
pub mod laws;
mod modules;
mod names;
mod parts;
mod places;
mod refusal;
mod script;
mod verdicts;

pub use refusal::{Finding, Refusal};
pub use script::{PlacedInstr, TargetApp, push_entry};
pub use verdicts::{findings, first_finding};
