//! What a script has done so far.
ghost use Rattle.std.specs.Prelude.{◌≡◌, ℕ, IfOk};
ghost use Rattle.held_processes.specs.Course.{Courses};
ghost use Rattle.held_processes.specs.Following.{AllFollow, AreLeft, HoldsNothing};
ghost use Rattle.held_processes.specs.Operations.{values_seen};
ghost use Rattle.proc_table.specs.Views.{seen};
ghost use Rattle.proc_table.specs.declared.view.View.{View};
ghost use Rattle.script_progress.specs.InMemory.{site_of};
ghost use Rattle.script_progress.specs.Script.{began};
ghost use Rattle.script_progress.specs.Steps.{HasDone, progress_of};

use crate::Sources;
use held_processes::HeldProcesses;
use loaded_modules::Loaded;
use std::alloc::{AllocError, Global};
use sup_tree::Tree;
use table_access::{Seating, TableAccess};

/// What a script holds and has fetched so far, and what is loaded and started once it has ended well.
pub struct Progress {
    pub held: HeldProcesses,
    pub fetched: Loaded,
    pub next: Loaded,
    pub tree: Tree,
}

impl Progress {
    /// Nothing was done yet, where these applications are started.
    pub fn new(alloc: Global, sources: &Sources<'_>, tree: &Tree) -> Result<Progress, AllocError>
        ensures tree { IfOk result (λ p. p.tree ≡ tree.now) }
        ensures begun { IfOk result (λ p. (v : View) → HoldsNothing v → HasDone
            (record { first = v; run = began (site_of sources.now) p.tree (values_seen v) })
            (progress_of p) p.tree v) }
    {
        let next = sources.loaded.copy()?;
        let tree = tree.copy(alloc)?;
        let held = HeldProcesses::new(alloc)?;
        let fetched = Loaded::new(alloc);
        Ok(Progress {
            held,
            fetched,
            next,
            tree,
        })
    }

    /// Each process that is held goes back as it was. It takes no memory, and waits for nobody.
    pub fn roll_back<S: Seating>(self, access: &mut TableAccess<'_, S>)
        requires follow { (first : View) × (courses : Courses)
            × AllFollow first courses self.held access.old }
        ensures left { (first : View) (courses : Courses) → AllFollow first courses self.held
            access.old → AreLeft first courses access.new }
        ensures seen { (p : ℕ) → seen access.new p ≡ seen access.old p }
        ensures found { access.new.found ≡ access.old.found }
    {
        let Progress {
            held,
            fetched: _fetched,
            next: _next,
            tree: _tree,
        } = self;
        held.roll_back(access);
    }
}
