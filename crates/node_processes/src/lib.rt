//! The processes of a node: commands list, peek, call and flood them.
//!
//! [`Processes`] are seen as what stands in each slot, which applications are started, and which modules are loaded
//! (specs/Processes); specs/Fresh says which run right after a boot to a list of releases.
//! [`Processes::list`], [`Processes::list_modules`], [`Processes::peek`] and [`Processes::call`] answer as a session's commands
//! do, and a call leaves what the table of its process says (specs/Answers). [`Processes::flood`] makes many calls of a process
//! from threads, and answers how often each outcome came; it leaves what these calls do one after another (specs/Floods). No
//! client but these sits at the table, so nothing comes between two of them.
//!
//! The fields of [`Processes`] are public, so that a script of a release can be carried out on them. What a script leaves is
//! determined by what stands in the slots, by the started applications and by the loaded modules, where nobody but the handler
//! comes to the processes (specs/Scripts).
//!
//! All but `list_modules` wait for slots; nobody else has any. Only tested: that they return, and succeed where memory is there.
//! Trusted: the toolchain, with what the crates below trust.
#![tactic(auto)]

mod commands;
mod look;
mod processes;

pub use processes::Processes;
