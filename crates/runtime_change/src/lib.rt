//! Relups between releases that may be for different runtime systems (OTP: `systools_relup`, `systools_rc`).
//!
//! A way leads to another runtime system where its releases are for different versions of it, or where the entry of an appup has
//! `restart_new_emulator` ([`changes_runtime`]). All else of its script is the translation's, as if there were one runtime system.
//! Up, the script then begins with `restart_new_emulator`, so that all else runs in the other runtime system. Down, it ends with
//! `restart_emulator`. A restart can also be asked for at each end. [`make_relup_over_runtimes`] makes such a relup, or gives the
//! first fault of the translation (clauses `made`, `refused`).
//!
//! The functions of `laws` say that a relup without such a way is the translation's, where restarts stand in its scripts, that a
//! node refuses a script that begins with another runtime system, and that a relup has names and versions where its releases have.
//!
//! Only tested: that a relup is made where memory is there. Trusted: the toolchain alone.
#![tactic(auto)]

pub mod laws;
mod relup;
mod runtime;
mod script;
mod settled;

pub use relup::make_relup_over_runtimes;
pub use runtime::{changes_runtime, row_between};
