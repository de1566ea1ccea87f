//! From where a script takes modules and applications.

use library::Library;
use loaded_modules::Loaded;
use rel_list::ReleaseList;
use std::rc::Rc;

/// The releases from whose libraries a script fetches modules, the libraries of the release to which it leads, and what was loaded
/// when it began.
#[derive(Clone, Copy)]
pub struct Sources<'a> {
    /// The releases.
    pub list: &'a ReleaseList,
    /// The libraries of the release to which the script leads.
    pub target: &'a [Rc<Library>],
    /// What was loaded when the script began.
    pub loaded: &'a Loaded,
}
