//! Relups made from appups: the scripts between releases that the appups of the higher one say (OTP: systools:make_relup/3).
//!
//! [`make_relup`] gives the relup between a release and others, or the first reason why there is none; both equal the
//! definition `translation` (clauses `made` and `refused`), which goes by cases on the instruction and the direction. Only
//! out of memory may come in their place.
//!
//! The functions of `laws` say of the definition that a relup is made exactly where no way between the releases has a fault,
//! and that a refusal is the first fault; that a way has none exactly where each application of another version has an entry
//! without a fault; that a script has all that its changes become, and a relup an entry for each release; that each script that
//! is made has one point of no return, and fetches what it loads, where no appup has a `load` of its own; that `check` of
//! `check` of `relup_file` finds nothing in it but instructions that can't be run anywhere; that a relup that is made has names and
//! versions, where its releases have; and that a relup from a release to itself changes nothing.
//!
//! Only tested: that a relup is made where memory is there. Trusted: the toolchain alone.
#![tactic(auto)]

mod changes;
mod error;
mod fault;
pub mod laws;
mod refusals;
mod relup;
mod script;

pub use error::TranslateError;
pub use relup::make_relup;
pub use relup_row::{ModuleNames, RelupApp, RelupRelease};
