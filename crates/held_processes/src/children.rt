//! Children of supervisors that end or go while processes are held.
ghost use Rattle.std.specs.Prelude.{◌≡◌, [], Option};
ghost use Rattle.held_processes.specs.Applications.{scene_at};
ghost use Rattle.held_processes.specs.Children.{ChildEndsHeld, DeletesIn, ReportsStay, TerminatesIn};
ghost use Rattle.held_processes.specs.Following.{AllFollow, AreLonger, Followed};
ghost use Rattle.started_members.specs.Places.{Place, with_below};
ghost use Rattle.std.specs.Option.{option_map_or};

use crate::{ChildName, HeldProcesses};
use proc_table::Pid;
use std::sync::Wait;
use sup_tree::{Kept, Member, NoSuper, Stay, Tree};
use table_access::{Seating, TableAccess};

/// What becomes of the process of a child that may be held.
#[derive(Clone, Copy)]
pub(crate) enum HeldEnd {
    /// The process of the child is held, and stays.
    Stays,
    /// The process of the child was held; it is given up and let go.
    GivenUp,
    /// No process of the child is held.
    NotHeld,
}

impl HeldProcesses {
    /// Ends a child of the one supervisor of its module, with all below it (OTP: supervisor:terminate_child/2): those of its
    /// processes that are held are given up and let go, then the others are given up, the last first. Nothing is done where the
    /// supervisor has no such child, nor where not exactly one is started. It waits for the slots, and takes no memory.
    pub fn terminate_child<R: Wait, S: Seating>(
        &mut self,
        rt: &R,
        access: &mut TableAccess<'_, S>,
        tree: &mut Tree,
        child: &ChildName<'_>,
    ) -> Result<(), NoSuper>
        ghost followed: { Followed }
        requires follow { AllFollow followed.first followed.courses self.old access.old }
        ensures terminated { TerminatesIn followed.first child.now.supervisor.now child.now.id.now
            (scene_at followed tree.old) result tree.new self.new access.new }
        ensures longer { AreLonger access.old access.new }
    {
        if !tree.has_one_supervisor(child.supervisor) {
            return Err(NoSuper);
        }
        self.give_up_all(access, tree.child_members(child.supervisor, child.id));
        tree.terminate_child(rt, access, child.supervisor, child.id)
    }

    /// Takes away a child of the one supervisor of its module, unless it is up, and answers whether nothing was done (OTP:
    /// supervisor:delete_child/2). Where its process is held, it counts as up or not by what was done to it. One that isn't up is
    /// given up, and let go. It waits for the slot of one that isn't held, and takes no memory.
    pub fn delete_child<R: Wait, S: Seating>(
        &mut self,
        rt: &R,
        access: &mut TableAccess<'_, S>,
        tree: &mut Tree,
        child: &ChildName<'_>,
    ) -> Result<bool, NoSuper>
        ghost followed: { Followed }
        requires follow { AllFollow followed.first followed.courses self.old access.old }
        ensures deleted { DeletesIn followed.first child.now.supervisor.now child.now.id.now
            (scene_at followed tree.old) result tree.new self.new access.old access.new }
        ensures longer { AreLonger access.old access.new }
    {
        if !tree.has_one_supervisor(child.supervisor) {
            return Err(NoSuper);
        }
        let members = tree.child_members(child.supervisor, child.id);
        if let HeldEnd::Stays = self.end_held(access, members, Stay::Up) {
            return Ok(true);
        }
        tree.delete_child(rt, access, child.supervisor, child.id)
    }

    /// What becomes of the process of the first of these members, which is a child: where it is held, it stays, or is given up and
    /// let go.
    pub(crate) fn end_held<S: Seating>(
        &mut self,
        access: &mut TableAccess<'_, S>,
        members: &[Member],
        stay: Stay,
    ) -> HeldEnd
        ghost followed: { Followed }
        requires follow { AllFollow followed.first followed.courses self.old access.old }
        ensures ended { (o : Option Place) → members.now ≡ option_map_or with_below o []
            → ChildEndsHeld followed.first stay o followed.courses
            access.old result self.new access.new }
        ensures longer { AreLonger access.old access.new }
    {
        let Some(member) = members.first() else {
            return HeldEnd::NotHeld;
        };
        let Some(process) = member.process() else {
            return HeldEnd::NotHeld;
        };
        match self.held_stays(process.pid, stay.kept_at(member.restart)) {
            Some(true) => HeldEnd::Stays,
            Some(false) => {
                self.give_up_slot(access, process.pid.slot);
                HeldEnd::GivenUp
            }
            None => HeldEnd::NotHeld,
        }
    }

    // Whether the process stays, where it is held.
    fn held_stays(&self, pid: Pid, kept: Kept) -> Option<bool>
        ensures { ReportsStay kept pid self.now result }
    {
        let value = self.held_value(pid.slot)?;
        Some(kept.keeps(value, pid))
    }
}
