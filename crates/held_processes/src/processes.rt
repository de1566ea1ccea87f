//! The processes of all slots.
ghost use Rattle.std.specs.Prelude.{◌≡◌, ℕ, IfErr, IfOk, None, OnErr, slice_index_or, true};
ghost use Rattle.std.specs.Option.{option_map};
ghost use Rattle.erl_term.specs.Value.{value_of};
ghost use Rattle.worker_table.specs.InMemory.{old_of};
ghost use Rattle.proc_table.specs.declared.view.View.{View};
ghost use Rattle.proc_table.specs.Views.{seen};
ghost use Rattle.held_processes.specs.Course.{Courses, on_all, on_module, opening};
ghost use Rattle.held_processes.specs.Course.Operation.{suspend, load, resume, stop, start, pass_point, finish};
ghost use Rattle.held_processes.specs.Following.{AllFollow, AreLeft, AreLonger, Followed, HoldsNothing};
ghost use Rattle.held_processes.specs.InMemory.{AsksAt, NotesUsersOf, behind_release, is_released, operation_of};
ghost use Rattle.held_processes.specs.Operations.{AreLookedAt, Changes, IsDone, ReportsHeldUser, give_up_at, has_free_user, modules_by_slot, uses_up, values_seen};

use crate::Users;
use crate::held_process::HeldProcess;
use crate::steps::{self, Step, Undone};
use erl_term::Term;
use mod_table::{Old, Worker};
use proc_table::{Pid, SLOTS, Value};
use std::alloc::{AllocError, Global};
use std::marker::Model;
use std::sync::Wait;
use table_access::{Seating, TableAccess};

/// Processes that the handler holds while a script runs, one place for each slot. It ends in [`HeldProcesses::finish`] or
/// [`HeldProcesses::roll_back`].
pub struct HeldProcesses {
    places: Vec<Option<HeldProcess>>,
}

impl Model for HeldProcesses {
    ghost use Rattle.proc_history.specs.contracts.value.Value as stored;
    ghost use Rattle.held_processes.specs.Codes.{slots_code};
    ghost use Rattle.held_processes.specs.Following.{HeldSlots};

    ghost Value = { HeldSlots };

    ghost coded = { slots_code stored.the_row.coded };

    ghost view = { λ h. h.places.items };
}

/// Which processes are let go.
#[derive(Clone, Copy)]
enum Which<'a> {
    /// The processes that use this module.
    Of(Users<'a>),
    /// The processes that are held for a load alone, until the point of no return.
    UntilPoint,
}

impl HeldProcesses {
    /// Nothing is held.
    pub fn new(alloc: Global) -> Result<HeldProcesses, AllocError>
        ensures { IfOk result
            (λ held. (v : View) → HoldsNothing v → AllFollow v (λ _. opening) held v) }
    {
        let mut places = Vec::with_capacity(alloc, Pid::count())?;
        for _ in 0..Pid::count() {
            places.push_reserved(None);
        }
        Ok(HeldProcesses { places })
    }

    /// The processes of the module are held until they are resumed. It waits until no client has them. Where memory is
    /// refused, some of them aren't held. It asks for memory only for one that isn't held yet.
    pub fn suspend<R: Wait, S: Seating>(
        &mut self,
        rt: &R,
        alloc: Global,
        access: &mut TableAccess<'_, S>,
        users: &Users<'_>,
    ) -> Result<(), Undone>
        ghost followed: { Followed }
        requires follow { AllFollow followed.first followed.courses self.old access.old }
        ensures done { IsDone followed.first (modules_by_slot users.now.tree.now)
            users.now.module.now suspend followed.courses result self.new access.new }
        ensures asks { OnErr result (has_free_user (modules_by_slot users.now.tree.now)
            users.now.module.now followed.courses ≡ true) }
        ensures longer { AreLonger access.old access.new }
    {
        self.perform(rt, access, users, Step::Suspend(alloc))
    }

    /// The processes of the module get this table. Those that aren't held are held for it, and wait for the point of no return
    /// if they are to be kept. It waits until no client has them. Where memory is refused, some of them don't have it.
    pub fn load<R: Wait, S: Seating>(
        &mut self,
        rt: &R,
        alloc: Global,
        access: &mut TableAccess<'_, S>,
        users: &Users<'_>,
        worker: &Worker,
        keep: bool,
    ) -> Result<(), Undone>
        ghost followed: { Followed }
        requires follow { AllFollow followed.first followed.courses self.old access.old }
        ensures done { IsDone followed.first (modules_by_slot users.now.tree.now)
            users.now.module.now (load keep worker.now) followed.courses result self.new
            access.new }
        ensures longer { AreLonger access.old access.new }
    {
        self.perform(rt, access, users, Step::Load(alloc, worker, keep))
    }

    /// The code of the processes of the module that are held and up is changed. Where one of them has no row for that, those in
    /// higher slots aren't changed. It takes no memory.
    pub fn change(&mut self, users: &Users<'_>, old: &Old, extra: &Term) -> Result<(), Undone>
        ensures { Changes (modules_by_slot users.now.tree.now) users.now.module.now
            (old_of old.now) (value_of extra.now) self.old result self.new }
    {
        let used = users.by_slot();
        for slot in 0..self.places.len() {
            if users.include(&used, slot) && !steps::change(&mut self.places[slot], old, extra) {
                return Err(Undone { slot });
            }
        }
        Ok(())
    }

    /// Whether a process of the module is held.
    pub fn holds(&self, users: &Users<'_>) -> bool
        ensures { ReportsHeldUser (modules_by_slot users.now.tree.now) users.now.module.now
            self.now result }
    {
        let used = users.by_slot();
        for slot in 0..self.places.len() {
            if self.places[slot].is_some() && users.include(&used, slot) {
                return true;
            }
        }
        false
    }

    /// Whether a process of the module is up. It looks at one after another, up to one that is. It adds nothing, and waits until no
    /// client has those that aren't held.
    pub fn any_up<R: Wait, S: Seating>(
        &self,
        rt: &R,
        access: &mut TableAccess<'_, S>,
        users: &Users<'_>,
    ) -> bool
        ghost followed: { Followed }
        requires follow { AllFollow followed.first followed.courses self.now access.old }
        ensures follow { AllFollow followed.first followed.courses self.now access.new }
        ensures reported { result ≡ uses_up (values_seen access.new)
            (modules_by_slot users.now.tree.now) users.now.module.now followed.courses }
        ensures looked { AreLookedAt (modules_by_slot users.now.tree.now) users.now.module.now
            followed.courses access.old access.new }
        ensures longer { AreLonger access.old access.new }
    {
        let used = users.by_slot();
        for slot in 0..self.places.len() {
            if users.include(&used, slot) {
                let pid = Pid { slot, round: 0 };
                if steps::is_up(rt, access, pid, &self.places[slot]) {
                    return true;
                }
            }
        }
        false
    }

    /// The processes of the module that are held are let go. It waits for nobody.
    pub fn resume<S: Seating>(&mut self, access: &mut TableAccess<'_, S>, users: &Users<'_>)
        ghost followed: { Followed }
        requires follow { AllFollow followed.first followed.courses self.old access.old }
        ensures done { AllFollow followed.first (on_module (modules_by_slot users.now.tree.now)
            users.now.module.now resume followed.courses) self.new access.new }
        ensures longer { AreLonger access.old access.new }
    {
        self.release(access, Which::Of(*users));
    }

    /// The point of no return: the processes that are held for a load are let go. It waits for nobody.
    pub fn pass_point<S: Seating>(&mut self, access: &mut TableAccess<'_, S>)
        ghost followed: { Followed }
        requires follow { AllFollow followed.first followed.courses self.old access.old }
        ensures done { AllFollow followed.first (on_all pass_point followed.courses)
            self.new access.new }
        ensures longer { AreLonger access.old access.new }
    {
        self.release(access, Which::UntilPoint);
    }

    /// The processes of the module are stopped, where they are up. It waits until no client has those that aren't held.
    pub fn stop<R: Wait, S: Seating>(
        &mut self,
        rt: &R,
        access: &mut TableAccess<'_, S>,
        users: &Users<'_>,
    )
        ghost followed: { Followed }
        requires follow { AllFollow followed.first followed.courses self.old access.old }
        ensures done { AllFollow followed.first (on_module (modules_by_slot users.now.tree.now)
            users.now.module.now stop followed.courses) self.new access.new }
        ensures longer { AreLonger access.old access.new }
    {
        let Ok(()) = self.perform(rt, access, users, Step::Stop) else {
            unreachable!();
        };
    }

    /// The processes of the module are up again, where they were stopped. It waits until no client has those that aren't held.
    pub fn start<R: Wait, S: Seating>(
        &mut self,
        rt: &R,
        access: &mut TableAccess<'_, S>,
        users: &Users<'_>,
    )
        ghost followed: { Followed }
        requires follow { AllFollow followed.first followed.courses self.old access.old }
        ensures done { AllFollow followed.first (on_module (modules_by_slot users.now.tree.now)
            users.now.module.now start followed.courses) self.new access.new }
        ensures longer { AreLonger access.old access.new }
    {
        let Ok(()) = self.perform(rt, access, users, Step::Start) else {
            unreachable!();
        };
    }

    /// The process of this slot is given up and let go, if it is held. It waits for nobody.
    pub(crate) fn give_up_slot<S: Seating>(&mut self, access: &mut TableAccess<'_, S>, slot: usize)
        ghost followed: { Followed }
        requires follow { AllFollow followed.first followed.courses self.old access.old }
        ensures done { AllFollow followed.first (give_up_at slot followed.courses)
            self.new access.new }
        ensures longer { AreLonger access.old access.new }
    {
        if slot < self.places.len() {
            steps::give_up(access, slot, &mut self.places[slot]);
        }
    }

    /// What stands in this slot, where the handler holds it.
    pub(crate) fn held_value(&self, slot: usize) -> Option<&Value>
        ensures { option_map (λ x. x.now) result
            ≡ option_map (λ h. h.held.value) (slice_index_or self.now slot None) }
    {
        match self.places.get(slot) {
            Some(Some(process)) => Some(process.held.value()),
            _ => None,
        }
    }

    /// The script has ended: what is still held is let go, with what was done to it. It takes no memory and waits for nobody.
    /// What the handler had seen of each slot stays in front (`longer`).
    pub fn finish<S: Seating>(self, access: &mut TableAccess<'_, S>)
        ghost followed: { Followed }
        requires follow { AllFollow followed.first followed.courses self access.old }
        ensures left { AreLeft followed.first (on_all finish followed.courses) access.new }
        ensures longer { AreLonger access.old access.new }
    {
        let HeldProcesses { mut places } = self;
        while let Some(place) = places.pop() {
            if let Some(process) = place {
                process.let_go(access);
            }
        }
        places.destroy_empty();
    }

    /// The way back: what is still held is given back as it was when it was taken. It takes no memory and waits for nobody. It
    /// is for courses that only the proof knows, as they are after an operation that failed.
    pub fn roll_back<S: Seating>(self, access: &mut TableAccess<'_, S>)
        requires follow { (first : View) × (courses : Courses)
            × AllFollow first courses self access.old }
        ensures left { (first : View) (courses : Courses)
            → AllFollow first courses self access.old → AreLeft first courses access.new }
        ensures seen { (p : ℕ) → seen access.new p ≡ seen access.old p }
        ensures found { access.new.found ≡ access.old.found }
    {
        let HeldProcesses { mut places } = self;
        while let Some(place) = places.pop() {
            if let Some(process) = place {
                process.roll_back(access);
            }
        }
        places.destroy_empty();
    }

    fn perform<R: Wait, S: Seating>(
        &mut self,
        rt: &R,
        access: &mut TableAccess<'_, S>,
        users: &Users<'_>,
        step: Step<'_>,
    ) -> Result<(), Undone>
        ghost followed: { Followed }
        requires follow { AllFollow followed.first followed.courses self.old access.old }
        ensures done { IsDone followed.first (modules_by_slot users.now.tree.now)
            users.now.module.now (operation_of step.entry) followed.courses result self.new
            access.new }
        ensures failed { IfErr result (λ e. AsksAt step.entry (modules_by_slot users.now.tree.now)
            users.now.module.now followed.courses e.slot) }
        ensures longer { AreLonger access.old access.new }
    {
        let used = users.by_slot();
        for slot in 0..self.places.len() {
            if users.include(&used, slot) {
                let pid = Pid { slot, round: 0 };
                match steps::perform(rt, access, pid, &mut self.places[slot], step) {
                    Ok(()) => {}
                    Err(_) => return Err(Undone { slot }),
                }
            }
        }
        Ok(())
    }

    fn release<S: Seating>(&mut self, access: &mut TableAccess<'_, S>, which: Which<'_>)
        ghost followed: { Followed }
        requires follow { AllFollow followed.first followed.courses self.old access.old }
        ensures done { AllFollow followed.first (behind_release which.entry followed.courses)
            self.new access.new }
        ensures longer { AreLonger access.old access.new }
    {
        let used = which.users_by_slot();
        for slot in 0..self.places.len() {
            if which.includes(&used, slot, &self.places[slot]) {
                steps::let_go(access, slot, &mut self.places[slot]);
            }
        }
    }
}

impl Which<'_> {
    // Which slots have a process of the module whose processes are let go.
    fn users_by_slot(self) -> [bool; SLOTS]
        ensures { NotesUsersOf self.entry result }
    {
        match self {
            Which::Of(users) => users.by_slot(),
            Which::UntilPoint => [false; SLOTS],
        }
    }

    fn includes(self, used: &[bool; SLOTS], slot: usize, place: &Option<HeldProcess>) -> bool
        requires { NotesUsersOf self used.now }
        ensures { result ≡ is_released self.entry slot place.now }
    {
        match self {
            Which::Of(users) => users.include(used, slot),
            Which::UntilPoint => match place {
                Some(process) => process.waits_for_point(),
                None => false,
            },
        }
    }
}
