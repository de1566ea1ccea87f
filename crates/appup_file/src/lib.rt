//! The appup files of applications: how an application is taken from one version to another (OTP: appup(4)).
//!
//! [`read_appup`] gives the appup that a file says, exactly where it says one; a refusal is the file's fault (clauses `says`,
//! `only`, `fault`). [`appup_of_term`] does so for a term. What is not written of an instruction has its default.
//! [`Appup::entry_for`] gives the instructions between two versions by its rule, and takes no memory. [`shape_fault`] gives the
//! first entry or instruction of a term that is none.
//!
//! The functions of `laws` say of these definitions that each file says one appup or has one fault, and not both; that a term says an
//! appup exactly where each of its instructions is written in one of its forms; and that else it has a first place that is none.
//!
//! Only tested: that an appup is read where memory is there. Trusted: the toolchain alone.
#![tactic(auto)]

mod applications;
mod appup;
mod entries;
mod fault;
mod instruction;
pub mod laws;
mod modules;
mod reader;
mod search;
mod shape;
mod steps;
mod update;

pub use appup::{Appup, AppupEntry, OtherVersion};
pub use fault::AppupFault;
pub use instruction::{
    AddedApp, AppupInstr, AppupInstr as Instr, Dependent, ModType, ModuleLoad, StateChange, Update,
};
pub use reader::{appup_of_term, read_appup};
pub use relup_instruction::Direction;
pub use search::EntryFault;
pub use shape::{ShapeFault, shape_fault};
