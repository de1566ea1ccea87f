//! The low-level instructions of scripts, as relups and appups have them (OTP: relup(4), appup(4)).
//!
//! [`instruction_in`] gives the instruction that a term is, exactly where it is one, and [`instruction_term`] the term of an
//! instruction. What is read keeps all that the term has. [`script_in`] gives the script of a list of instructions; that of
//! no instructions is the point of no return alone.
//! The functions of `laws` say of both that nothing else is read.
//! [`instruction_in`] and `words` are what readers of files with instructions share.
//!
//! Only tested: that an instruction is read and written where memory is there. Trusted: the toolchain alone.
#![tactic(auto)]

mod instruction;
pub mod laws;
mod payloads;
mod spelling;
mod steps;
pub mod words;

pub use instruction::{
    Call, Change, Conversion, Direction, Fetch, Instr, PurgeMode, Purging, Suspension, Timeout,
};
pub use spelling::instruction_term;
pub use steps::{instruction_in, script_in};
