//! An installation on the processes of a node: by which script a release is installed, and what the script makes of them (OTP:
//! release_handler:install_release/1). Nothing here asks a disk.
//!
//! [`find_upgrade`] finds the script, and tests what can be tested before it begins (`found`, `refused`): whether the release has
//! the version of the runtime system that runs, and whether each instruction stands where it may. [`Upgrade::run`] carries it out:
//! at `Ok` the whole script is done, what is loaded is what it says, and the stale modules are reported (`installed`); a script
//! that is refused before its point of no return has added nothing to any history, and one that fails after it did what it did
//! until then (`refused`). The memory for what is reported is taken before the script begins. It waits for processes that clients
//! have.
//!
//! Only tested: that a script is carried out where memory is there. Trusted: the toolchain,
//! with what the crates below trust.
#![tactic(auto)]

mod error;
mod stale;
mod upgrade;

pub use error::{InstallError, ScriptFailure, Why};
pub use relup_exec::{Cause, Tree};
pub use upgrade::{Installed, Upgrade, find_upgrade};
