//! A process that is held.
ghost use Rattle.std.specs.Prelude.{◌≡◌, ℕ, None, Some};
ghost use Rattle.held_processes.specs.Course.{let_go};
ghost use Rattle.held_processes.specs.Following.{AreLonger, HeldForm};
ghost use Rattle.held_processes.specs.InMemory.{hold_of, is_until_point};
ghost use Rattle.held_processes.specs.Slots.{SlotPast, IsFollowed, Steps, Takes, dropped};
ghost use Rattle.proc_table.specs.Views.{seen};

use proc_table::{Held, Pid, Value};
use std::alloc::{AllocError, Global};
use std::marker::Model;
use std::sync::Wait;
use table_access::{Seating, TableAccess};

/// How long a process is held.
#[derive(Clone, Copy)]
pub(crate) enum Hold {
    /// For a load, until the point of no return.
    UntilPoint,
    /// Until it is resumed.
    UntilResumed,
}

/// A process that is held, with a copy of what stood in its slot when it was taken.
pub(crate) struct HeldProcess {
    pub(crate) held: Held,
    saved: Value,
    pub(crate) hold: Hold,
}

impl Model for HeldProcess {
    ghost use Rattle.proc_history.specs.contracts.value.Value as stored;
    ghost use Rattle.held_processes.specs.Codes.{held_code};
    ghost use Rattle.held_processes.specs.Following.{HeldForm};
    ghost use Rattle.held_processes.specs.InMemory.{hold_of};

    ghost Value = { HeldForm };

    ghost coded = { held_code stored.the_row.coded };

    ghost view = { λ h. record { held = h.held; saved = h.saved; hold = hold_of h.hold } };
}

impl HeldProcess {
    /// Takes the process of the slot, once no client has it. Where no memory is left for a copy of what stands there, it is
    /// given back as it was.
    pub(crate) fn take<R: Wait, S: Seating>(
        rt: &R,
        alloc: Global,
        access: &mut TableAccess<'_, S>,
        pid: Pid,
        hold: Hold,
    ) -> Result<HeldProcess, AllocError>
        ghost past: { SlotPast }
        requires free { IsFollowed past pid.slot past.course access.old None }
        ensures taken { Takes past pid.slot (hold_of hold) access.old result access.new }
        ensures longer { AreLonger access.old access.new }
    {
        let held = access.hold(rt, pid);
        match held.value().copy(alloc) {
            Ok(saved) => Ok(HeldProcess { held, saved, hold }),
            Err(failed) => {
                access.release(held, &[]);
                Err(failed)
            }
        }
    }

    /// Gives the process back, with what was done to it.
    pub(crate) fn let_go<S: Seating>(self, access: &mut TableAccess<'_, S>)
        ghost past: { SlotPast }
        requires held { IsFollowed past self.held.slot past.course access.old (Some self) }
        ensures gone { Steps past self.held.slot
            (let_go past.course) access.old None access.new }
        ensures longer { AreLonger access.old access.new }
    {
        let HeldProcess {
            held,
            saved: _saved,
            hold: _hold,
        } = self;
        access.let_go(held);
    }

    /// Gives the process back as it was when it was taken.
    pub(crate) fn roll_back<S: Seating>(self, access: &mut TableAccess<'_, S>)
        requires held { (past : SlotPast)
            × IsFollowed past self.held.slot past.course access.old (Some self) }
        ensures gone { (past : SlotPast)
            → IsFollowed past self.held.slot past.course access.old (Some self)
            → Steps past self.held.slot (dropped past.course) access.old None access.new }
        ensures seen { (p : ℕ) → seen access.new p ≡ seen access.old p }
        ensures found { access.new.found ≡ access.old.found }
    {
        let HeldProcess {
            mut held,
            saved,
            hold: _hold,
        } = self;
        held.set(saved);
        access.release(held, &[]);
    }

    /// Whether it is held for a load, until the point of no return.
    pub(crate) fn waits_for_point(&self) -> bool
        ensures { result ≡ is_until_point self.now.hold }
    {
        match self.hold {
            Hold::UntilPoint => true,
            Hold::UntilResumed => false,
        }
    }
}
