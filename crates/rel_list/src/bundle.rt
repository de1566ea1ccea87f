//! A release with its libraries and its relup.
use library::Library;
use rel_files::Rel;
use relup_file::Relup;
use std::rc::Rc;

/// A release with the libraries of its applications, and its relup (OTP: a release package).
#[derive(Drop)]
pub struct Bundle {
    pub release: Rel,
    /// In the order of the release's applications. Releases share a library that they all name.
    pub libraries: Vec<Rc<Library>>,
    /// The scripts that lead to it and from it. None where no relup stands beside its file.
    pub relup: Option<Relup>,
}
