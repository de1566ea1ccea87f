//! What a node's program takes from its host: its options, files below a folder, and a disk over a file; and how it ends.
//!
//! [`FileDisk`] is a `rel_disk::Disk` over any [`DiskFile`]. Its contracts are those of every disk, and say each state exactly
//! (clauses `done` and `failed`): a call that answers Ok was done on the file, with the same bytes at the same place. A call
//! fails where the memory has no room, or where a call of the file failed; from then on every write, cut and sync fails, and the
//! file is left alone. An opening has synced the folder and the file before it read the file (`kept`, `read`).
//! [`RootFiles`] reads files below a folder. The clause `outside` says that a path that does not lead below it is Missing,
//! and `is_below` says which paths those are. Without a folder, or with one of the empty name, each is (`no_folder`).
//! [`read_options`] has `clap`'s exact meaning of the arguments (clauses `given`, `taken` and `refused`).
//! A [`Failure`] says why the program ends before its input, with its exit status and what it reports (specs/Exits).
//!
//! Only tested: what the calls do to files of the host, over a host that notes each of them. Trusted: that a file has the bytes
//! that were written to it and outlives a crash as a disk does, the toolchain with its file calls, `clap` and `thiserror`.
#![tactic(auto)]

mod disk_file;
mod failure;
mod file_disk;
mod options;
mod readers;
mod root_files;

pub use disk_file::{DiskFile, DiskHost, FileLock};
pub use failure::Failure;
pub use file_disk::{FileDisk, OpenError};
pub use options::{Options, OptionsError, read_options};
pub use root_files::{RootFiles, is_below};
