//! What an operation names: the processes that run a module, an application, or a child of a supervisor.
ghost use Rattle.std.specs.Prelude.{◌≡◌};
ghost use Rattle.sup_tree.specs.Tree.{NotesUsers, module_in};
ghost use Rattle.held_processes.specs.Course.{runs};

use proc_table::SLOTS;
use sup_tree::Tree;

/// The processes that run this module, by this tree.
#[derive(Clone, Copy)]
pub struct Users<'a> {
    pub tree: &'a Tree,
    pub module: &'a str,
}

impl Users<'_> {
    /// Which slots have one of them, found in one walk through the tree. It takes no memory.
    pub fn by_slot(&self) -> [bool; SLOTS]
        ensures { NotesUsers self.now.module.now self.now.tree.now result }
    {
        self.tree.users_by_slot(self.module)
    }

    /// Whether the process in the slot is one of them, by what [`Users::by_slot`] has noted.
    pub fn include(&self, used: &[bool; SLOTS], slot: usize) -> bool
        requires { NotesUsers self.now.module.now self.now.tree.now used.now }
        ensures { result ≡ runs self.now.module.now (module_in slot self.now.tree.now) }
    {
        match used.get(slot) {
            Some(used) => *used,
            None => false,
        }
    }
}

/// The name of an application.
#[derive(Clone, Copy)]
pub struct AppName<'a> {
    pub name: &'a str,
}

/// The child of this id of the supervisor of this module.
#[derive(Clone, Copy)]
pub struct ChildName<'a> {
    pub supervisor: &'a str,
    pub id: &'a str,
}
