//! The tests over a whole release, once each of its files was read.
//!
//! [`check_release`] answers the first fault of a release (specs/Fault), or that no memory was left. First a module that stands in
//! two applications; then two children of one id in an application; then a module without the table that a child or a top asks of
//! it; last a limit that is passed. Which tables are asked for, and how many processes there are, a walk says: from the tops of
//! the started applications down through their supervisors (specs/Walk). It goes through 8 supervisors in each other: what lies
//! deeper passes that limit, and nothing is reported as missing there.
//! A supervisor that many others share is not walked again for each (specs/Summary): a check takes n log n steps in the size of
//! the files, whatever they name. [`check_relup`] says whether a release can have the relup that was read for it (specs/Relup).
//! The functions of `laws` say of these definitions that a walk which may go deeper finds the same where the limit is kept, that a
//! supervisor within itself exceeds it, and that a module reported as missing is named in the release; that no name stands again
//! exactly where names are distinct, and that each module has its own table then.
//! Only tested: that a release is checked where memory is there, and in what time. Trusted: the toolchain alone.
#![tactic(auto)]

mod check;
mod fault;
pub mod laws;
mod limits;
mod modules;
mod names;
mod relup;
mod walk;

pub use check::check_release;
pub use fault::ReleaseFault;
pub use limits::is_small;
pub use names::Named;
pub use relup::{RelupMismatch, check_relup};
