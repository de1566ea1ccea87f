//! The supervision tree: the processes of started applications (OTP: supervisor, application).
//!
//! A [`Tree`] holds which applications are started, each with its members (`started_members`): its supervisors and their children,
//! what stands for each, and of a process its id, its module and its `Pid` (specs/Tree). [`Tree::start_app`] begins a process for
//! each worker below the application's top: children in the order of their list, those of a supervisor before its next sibling
//! (`app_members`), each in the lowest slot in which one can begin (specs/Starts). It starts all of them, or nothing.
//! [`prepare_app`] takes all memory that an application needs, and [`NewApp::begin`] starts it without any more: so several
//! applications start together, or none ([`Tree::of`]).
//! [`Tree::stop_app`] gives them up, the last first, but for those that were given up before (specs/Stops). Both wait for the
//! slots. [`Tree::find`], [`Tree::processes_using`], [`Tree::module_in`] and [`Tree::users_by_slot`] look processes up, and
//! [`Tree::supervises`] a supervisor. A tree that was copied knows where the process of each slot stands (specs/Spots), so that the
//! slots of a module are found without a walk.
//!
//! Children change as well. [`Tree::change_children`] gives the supervisors of a module the children of another table
//! (specs/Changes). [`Tree::terminate_child`] ends one child of the one supervisor of a module, and [`Tree::delete_child`] takes
//! one away (specs/Children); [`Tree::restart_child`] begins one again (specs/Restarts). The last two leave a child that is up as
//! it is.
//!
//! Only tested: that an application starts where memory is there. Trusted: the toolchain and `thiserror`.
#![tactic(auto)]

mod begins;
mod changes;
mod children;
mod error;
mod restarts;
mod spots;
mod stops;
mod tree;

pub use app_members::{Loaded, MembersError};
pub use begins::{NewApp, prepare_app};
pub use error::{NoSuchApp, NoSuper, RestartError, StartError};
pub use started_members::{Kept, Member, MemberState, StartedProcess, Stay};
pub use tree::{StartedApp, Tree};
