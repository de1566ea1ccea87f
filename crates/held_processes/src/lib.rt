//! Processes that the handler holds while a script runs (OTP: release_handler_1, sys:suspend and sys:change_code).
//!
//! What a script does to a process is its course (specs/Course): how long it is held, what was done to it since (pending), and the
//! blocks of entries that stand in its history. A block is what is added from where a process is held to where it is let go, so no
//! call stands between a load and its change of code; what is done to a process that isn't held is a block alone.
//! [`HeldProcesses`] does operations on the processes of a module ([`Users`], by the tree), or on all, and each contract says that
//! the handler still follows all courses, after that operation (specs/Following, specs/Operations). [`HeldProcesses::finish`]
//! lets all go, and [`HeldProcesses::roll_back`] gives all back as they were when they were taken, without an entry. Neither
//! takes memory. Where memory is refused, or a process has no row for its change of code, the slots below it are done.
//! Applications and children of supervisors start, stop, end and begin again meanwhile (specs/Applications, Children, Restarts):
//! by the courses alone where a process begins, and whether a child is up by what the handler has seen, since others may have
//! ended it: by a look in the same call, unless its process is held.
//! The functions of `laws` say that while no pass is lent a history is that from before and the blocks, that without a block
//! nothing was added, that what is pending adds none, and that starts and stops of applications leave nothing held.
//! Only tested: that an operation is done where memory is there. Trusted: the toolchain alone.
#![tactic(auto)]

mod applications;
mod children;
mod held_process;
pub mod laws;
mod processes;
mod restarts;
mod steps;
mod users;

pub use processes::HeldProcesses;
pub use restarts::NotRestarted;
pub use steps::Undone;
pub use users::{AppName, ChildName, Users};
