//! The members with which an application starts (OTP: supervisor, Principles).
//!
//! [`members_of_app`] goes from the application's top through the children of its supervisors, by the tables that are loaded: each
//! supervisor before its children, a child with those below it before its next sibling (specs/Walk). It answers the members in that
//! order, or the first fault on the way, and [`members_of_child`] those with which a child of a supervisor starts. Members are
//! counted first, those below a supervisor that many others share once, and memory is asked for all of them at once.
//! [`process_count`] reports how many of them are processes.
//!
//! Only tested: that members are answered where memory is there, and that the faults below supervisors which many others share are
//! not looked for again for each. Trusted: the toolchain and `thiserror`.
#![tactic(auto)]

mod error;
mod walk;

pub use error::MembersError;
pub use loaded_modules::Loaded;
pub use walk::{NewChild, NewMember, members_of_app, members_of_child, process_count};
