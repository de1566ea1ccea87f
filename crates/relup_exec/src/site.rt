//! Where a script runs.
use library::Library;
use loaded_modules::Loaded;
use proc_table::{HandlerSeat, ProcTable};
use rel_list::ReleaseList;
use std::rc::Rc;
use sup_tree::Tree;

/// Where a script runs: what it changes, and from where it takes modules and applications.
#[derive(Drop)]
pub struct Site<'s> {
    /// The table of the processes.
    pub table: &'s ProcTable,
    /// The seat of the handler, which sits at it.
    pub seat: &'s mut HandlerSeat,
    /// The started applications.
    pub tree: &'s mut Tree,
    /// The loaded modules.
    pub loaded: &'s mut Loaded,
    /// The libraries of the release to which the script leads.
    pub target: &'s [Rc<Library>],
    /// The releases from whose libraries modules are fetched.
    pub list: &'s ReleaseList,
}
