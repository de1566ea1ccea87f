//! A node's releases on a disk, under commands that survive a stop at any moment (OTP: release_handler(3)).
//!
//! A [`Handler`] keeps the list of a node's releases, and on a disk a store with a record for each change of it. `create` makes a
//! node and `boot` reads it from its disk again. `set_unpacked`, `install_release`, `make_permanent`, `remove_release` and
//! `reboot_old_release` change the list; `check_install` answers the script of an installation.
//!
//! Stopped at any moment of a call, the disk stands for the list of a prefix of the accepted events that holds every acknowledged
//! one (`IsOfPrefix`), and a boot of it answers that list, or refuses for memory or the device alone. Of `create` this holds
//! after its first sync, and the disk may be no store then. After an `Ok` it stands for the list with the command's event
//! (`IsDone`). A refusal changes nothing, but for `Device` and `MustReboot`. After these, after a reboot to an old release and
//! after an installation with a restart the handler is dead until the next boot.
//! The law `a_disk_boots_or_is_refused`: all bytes stand for one list or a boot refuses them, and never both.
//! Of bytes the contracts say only that a disk is an image (`IsImageOf`), and of records what they make (`Makes`).
//! Only tested: that a call succeeds where memory is there. Trusted: `thiserror`, the toolchain, and what the crates below trust.
#![tactic(auto)]

mod booting;
mod creation;
mod error;
mod handler;
mod install_record;
mod installation;
pub mod laws;
mod unpacking;

pub use booting::boot;
pub use error::BootError;
pub use file_source::{Files, FilesError};
pub use handler::Handler;
pub use node_command::HandlerError;
pub use node_upgrade::{InstallError, Installed, ScriptFailure, Why};
pub use rel_unpack::FileTrouble;
