//! Scripts of relups, carried out on the processes of a node (OTP: release_handler(3), appup(4)).
//!
//! [`run_before`] carries out a script up to its point of no return. It answers an [`Armed`] script exactly where no instruction
//! before the point fails (`armed`), unless memory is refused, and else the number of the first one that fails, and why
//! (`refused`); then nothing was added to any history, and nothing is held. [`Armed::roll_back`] gives all processes back as they
//! were. [`Armed::run_after`] carries out the rest: where all is done, the blocks of the script stand in the histories, each
//! whole, and what is loaded and started is what the script says (`finished`); else the first instruction that fails is reported,
//! and what was held is let go with the changes made so far (`broken`). Each goes by what was seen and taken meanwhile (`RanOne`).
//! [`carry_out_early`] and [`carry_out_late`] carry out one instruction on a [`Progress`], before the point and after it. It is
//! done where it has no fault (specs/Fault of `script_progress`); else its fault is reported, or that memory was refused, and a
//! [`Failure`] says how far it came (`carried`). All but the way back wait for processes that clients have.
//! The laws say that while no pass is lent a script has one outcome, memory aside (specs/Alone:
//! `a_script_alone_has_one_outcome`); and where an instruction fails after the point, one history is left in each slot
//! (`a_broken_script_leaves_one_history`).
//! Only tested: that a script or an instruction is carried out where memory is there. Trusted: the toolchain alone.
#![tactic(auto)]

mod after;
mod armed;
mod before;
mod change;
mod early;
mod fetch;
mod late;
pub mod laws;
mod load;
mod release;
mod remove;
mod script_run;
mod site;
mod suspend;

pub use after::{Done, Failed};
pub use armed::Armed;
pub use before::{Refused, run_before};
pub use early::carry_out_early;
pub use late::carry_out_late;
pub use script_progress::{Cause, Failure, Progress, Sources};
pub use site::Site;
pub use sup_tree::Tree;
