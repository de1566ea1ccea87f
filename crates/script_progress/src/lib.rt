//! What a script has done so far, and the calls that it makes (OTP: release_handler(3), appup(4), application(3), supervisor(3)).
//!
//! A script's [`Progress`] is what it holds and has fetched so far, and what is loaded and started once it has ended well.
//! [`Progress::new`] is that of a script that has done nothing yet (`begun`), and [`Progress::roll_back`] gives each process that
//! is held back as it was (`left`). What the instructions do is defined here, also for the crate that carries out the others: what
//! is done so far (specs/Script), why an instruction fails (specs/Fault) and how far it comes then (specs/Stops), and that it was
//! carried out or fails (specs/Steps: `CarriesOut`, `CarriesOutLate`). A [`Failure`] reports both; [`Cause::text`] is how the cause
//! is shown.
//! [`apply`] makes a call after the point of no return: an application is started or stopped, a child of a supervisor ends, goes
//! or begins again, or the script raises an error (`raise`), as it may before the point. A call that takes a child away, or begins
//! it again, leaves one that is up as it is, and `apply` reports which it did, since what the rest of a script does goes by that
//! (`carried`). Where it fails, of the progress only what is held is said, so that it can be given back.
//!
//! Only tested: that a script begins, that a call is made, and that a cause is shown, where memory is there. Trusted: the
//! toolchain alone.
#![tactic(auto)]

mod calls;
mod cause;
mod child;
mod errors;
mod progress;
mod sources;

pub use calls::apply;
pub use cause::{Cause, Failure, failure_at_start, on_no_child};
pub use errors::{error_term, raise};
pub use progress::Progress;
pub use sources::Sources;
pub use sup_tree::Tree;
