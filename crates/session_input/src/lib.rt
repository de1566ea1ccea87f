//! The commands of a session, read from an input.
//!
//! An [`Input`] gives one command after another (`next_command`): those that its lines say (specs/Commands), up to its end,
//! or to where more of it is needed than the 16,777,216 bytes that may be taken. Its contract says which commands are left,
//! as far as the bytes of the reader can be named. A line has at most 4,096 bytes and a given file 1,048,576; nothing longer
//! is kept.
//!
//! Where a read fails, the bytes that were taken hold no further command (`IsNext`). So nothing is read while a whole command is
//! there, whatever reader it is. Once the end was read, nothing is read again.
//!
//! [`SessionError`] says why a session ends early, with its exit status and text. A failed read and an input that is
//! too long are reported only where they were.
//!
//! Trusted: the toolchain and `thiserror`.
#![tactic(auto)]

mod ahead;
mod command;
mod error;
mod given;
mod input;
mod line;
mod parsed_line;
mod words;

pub use command::Command;
pub use error::SessionError;
pub use given::{GivenFile, MOST_FILE};
pub use input::Input;
