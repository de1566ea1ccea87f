//! The relup files of releases: scripts that lead from one release to another, and which of them can be run (OTP: relup(4),
//! appup(4), release_handler(3)).
//!
//! [`read_relup`] gives the relup that a file says, exactly where it says one; a refusal is the file's fault (clauses `says`,
//! `only`, `fault`). [`relup_of_term`] does so for a term. A script of no instructions is read as the point of no return alone.
//! [`print_relup`] gives the text of a relup (`printed`), a file that says this relup where its parts keep their forms and a
//! reader's limits (`reads_back`). `outline` is what readers of other files with upgrades and downgrades share.
//! [`check`] takes a script exactly where it has one point of no return and each instruction stands on a side of it where
//! it is run, a restart at its end alone, and else reports its fault (`runnable`, `fault`). [`restarts`] reports whether it asks
//! for a restart. [`find_script`] gives the script between two releases by its rule. These three take no memory.
//!
//! The functions of `laws` say that each file says one relup or has one fault, and not both; those of `script_laws` that what
//! `script_fault` finds is the fault of a script, and that it finds none exactly in a script that can be run.
//!
//! Only tested: that a relup is read and printed where memory is there. Trusted: the toolchain alone.
#![tactic(auto)]

mod calls;
mod entries;
mod fault;
pub mod laws;
pub mod outline;
mod printer;
mod reader;
mod relup;
mod script;
mod script_fault;
pub mod script_laws;
mod search;

pub use fault::RelupFault;
pub use printer::{print_relup, relup_term};
pub use reader::{RelupFile, read_relup, read_relup_file, relup_of_term};
pub use relup::{Relup, RelupEntry};
pub use relup_instruction::{
    Call, Change, Conversion, Direction, Fetch, Instr, PurgeMode, Purging, Suspension, Timeout,
};
pub use script::{check, is_point, restarts};
pub use script_fault::ScriptFault;
pub use search::{Found, NoMatchingRelup, find_script};
