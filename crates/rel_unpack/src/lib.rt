//! What a release and its files give: its applications with their modules, its relup, or the first refusal.
//!
//! [`read_release`] reads a `.rel` file, and [`read_libraries`] the files of its applications; [`unpack_applications`] then
//! asks the tests over the whole release, [`read_relup_beside`] reads the relup, and [`unpack_release`] does all of it. Each
//! answers what its definition says (specs/Release, specs/Applications, specs/Relup, specs/Unpacking), or that no memory was
//! left: a file after another is read, up to the first that isn't taken. The libraries before it are reported beside that refusal,
//! so that they can be compared with those that a node has, and why the relup is refused is reported separately. The definitions
//! stand over files as a relation between paths and what a read of them gives.
//!
//! Only tested: that files are read where memory is there. Trusted: the toolchain and `thiserror`.
#![tactic(auto)]

mod applications;
mod error;
mod paths;
mod release;
mod relup;
mod source;
mod tables;
mod unpacking;

pub use applications::{ApplicationFiles, read_application, read_libraries};
pub use error::{FileTrouble, UnpackError};
pub use release::read_release;
pub use relup::read_relup_beside;
pub use source::{read_bytes, unless_missing};
pub use unpacking::{ReleaseFiles, unpack_applications, unpack_release};
