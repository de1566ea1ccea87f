//! A release of the list.
use crate::Status;
use library::Library;
use rel_files::Rel;
use relup_file::Relup;
use std::rc::Rc;

/// A release of the list, with its libraries, its relup and its status.
#[derive(Drop)]
pub struct ListedRelease {
    pub release: Rel,
    /// The libraries of its applications, in their order. Releases share a library that they all name.
    pub libraries: Vec<Rc<Library>>,
    /// The scripts that lead to it and from it, if it has a relup.
    pub relup: Option<Relup>,
    pub status: Status,
}
