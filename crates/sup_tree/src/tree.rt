//! The tree of started applications.
ghost use Rattle.std.specs.Prelude.{◌≡◌, IfOk, Some, is_some, [], map};
ghost use Rattle.std.specs.Option.{option_map};
ghost use Rattle.sup_tree.specs.Tree.{app_of, app_named, find_process, members_of, NotesUsers, module_in, processes_using, supervises};

use crate::spots::{Spot, users_among, users_at};
use proc_table::{Name, Pid, SLOTS};
use started_members::{Member, add_using, module_among, process_with, supervises_in};
use std::alloc::{AllocError, Global};
use std::marker::Model;

/// An application that is started, with its members.
#[derive(Drop)]
pub struct StartedApp {
    pub name: Name,
    pub members: Vec<Member>,
}

/// The applications that are started, with their members. Contracts see them in the order of their starts.
#[derive(Drop)]
pub struct Tree {
    pub(crate) apps: Vec<StartedApp>,
    /// Where their processes stand, in a tree that was copied. Whatever changes the applications finds the spots again.
    pub(crate) spots: Option<Vec<Option<Spot>>>,
}

impl Model for Tree {
    ghost use Rattle.std.specs.Prelude.{List, map};
    ghost use Rattle.started_members.specs.contracts.member.Member as stored;
    ghost use Rattle.sup_tree.specs.Spots.{KnowsSpots};
    ghost use Rattle.sup_tree.specs.Tree.{App, app_of, apps_code};

    ghost Value = { List App };

    ghost coded = { apps_code stored.the_row.coded };

    ghost view = { λ t. map app_of t.apps.items };

    ghost invariant = { λ t. KnowsSpots (map app_of t.apps.items) t.spots };
}

impl Tree {
    /// A tree in which nothing is started.
    pub fn new(alloc: Global) -> Tree
        ensures { result ≡ [] }
    {
        Tree {
            apps: Vec::new(alloc),
            spots: None,
        }
    }

    /// A tree in which these applications are started.
    pub fn of(apps: Vec<StartedApp>) -> Tree
        ensures { result ≡ map app_of apps.items }
    {
        Tree { apps, spots: None }
    }

    /// Whether the application is started.
    pub fn is_started(&self, app: &str) -> bool
        ensures { result ≡ is_some (app_named app.now self.now) }
    {
        self.app(app).is_some()
    }

    /// The members of the application, each supervisor before its children, and a child with those below it before its next
    /// sibling; none where it isn't started.
    pub fn members(&self, app: &str) -> &[Member]
        ensures { result.now ≡ members_of app.now self.now }
    {
        match self.app(app) {
            Some(app) => app.members.as_slice(),
            None => &[],
        }
    }

    /// The process of this application with this id, where there is one; of several the one in the lowest slot.
    pub fn find(&self, app: &str, id: &str) -> Option<Pid>
        ensures { result ≡ find_process app.now id.now self.now }
    {
        let app = self.app(app)?;
        process_with(app.members.as_slice(), id)
    }

    /// The processes that run this module, in the order of the walk.
    pub fn processes_using(&self, alloc: Global, module: &str) -> Result<Vec<Pid>, AllocError>
        ensures { IfOk result (λ pids. pids.items ≡ processes_using «module».now self.now) }
    {
        let mut pids = Vec::new(alloc);
        for app in self.apps.as_slice() {
            add_using(&mut pids, app.members.as_slice(), module)?;
        }
        Ok(pids)
    }

    /// The module of the process that began in this slot, where one did.
    pub fn module_in(&self, slot: usize) -> Option<&str>
        ensures { option_map (λ m. m.now) result ≡ module_in slot self.now }
    {
        for app in self.apps.as_slice() {
            if let Some(module) = module_among(app.members.as_slice(), slot) {
                return Some(module);
            }
        }
        None
    }

    /// Which slots have a process that runs this module. It goes through the slots of a tree that was copied, and of another
    /// through all members, once. It takes no memory.
    pub fn users_by_slot(&self, module: &str) -> [bool; SLOTS]
        ensures { NotesUsers «module».now self.now result }
    {
        match &self.spots {
            Some(spots) => users_at(self.apps.as_slice(), spots.as_slice(), module),
            None => users_among(self.apps.as_slice(), module),
        }
    }

    /// Whether a started application has a supervisor of this module.
    pub fn supervises(&self, module: &str) -> bool
        ensures { result ≡ supervises «module».now self.now }
    {
        for app in self.apps.as_slice() {
            if supervises_in(app.members.as_slice(), module) {
                return true;
            }
        }
        false
    }

    fn app(&self, name: &str) -> Option<&StartedApp>
        ensures { option_map (λ a. app_of a.now) result ≡ app_named name.now self.now }
    {
        for app in self.apps.as_slice() {
            if app.name.as_str() == name {
                return Some(app);
            }
        }
        None
    }
}
