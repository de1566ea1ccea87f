//! What a command of a node asks of the files and of the list, and why it is refused.
//!
//! A release comes from the file of a path and the files of its applications. [`bring_release`] takes what `rel_unpack` says that
//! the path brings (`Brings`), or is refused for the release's own file (`IsOfFiles`). [`new_version`] asks a list for its version
//! and its libraries (`HasNoPlace`), and [`unless_refused`] reports what is wrong with its other files, or that the node has too
//! many releases (`IsReportedAs`).
//! [`find_installation`] gives the script by which a release is installed (`installation`).
//!
//! Each command is an event of the list (`step`). `commanded` says what the event makes of a node's list, or why the command is
//! refused for the list and its limits; `change_size`, `made_size` and `unpacked_size` say how many bytes the body of its record
//! has. A [`HandlerError`] is why a command is refused, by the files, the list, or the disk below.
//!
//! Only tested: that a call succeeds where memory is there. Trusted: `thiserror`, and the toolchain with what the crates below
//! trust.
#![tactic(auto)]

mod error;
mod installation;
mod release;

pub use error::HandlerError;
pub use installation::find_installation;
pub use release::{NewBundle, bring_release, has_room, new_bundle, new_version, unless_refused};
