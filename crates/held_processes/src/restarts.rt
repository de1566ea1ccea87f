//! Children of supervisors that begin again while processes are held.
ghost use Rattle.std.specs.Prelude.{◌≡◌};
ghost use Rattle.held_processes.specs.Applications.{scene_at};
ghost use Rattle.held_processes.specs.Following.{AllFollow, AreLonger, Followed};
ghost use Rattle.held_processes.specs.Restarts.{RestartsIn, was_given_up};
ghost use Rattle.sup_tree.specs.Loaded.{modules_in, tables_of};

use crate::children::HeldEnd;
use crate::{ChildName, HeldProcesses};
use std::alloc::Global;
use std::sync::Wait;
use sup_tree::{Loaded, RestartError, Stay, Tree};
use table_access::{Seating, TableAccess};

/// Why a child doesn't begin again, and whether what stood for it was given up all the same.
#[derive(Debug, Drop)]
pub struct NotRestarted {
    pub error: RestartError,
    pub given_up: bool,
}

impl HeldProcesses {
    /// Begins a child of the one supervisor of its module again, beside the processes that are held, and answers whether nothing
    /// was done (OTP: supervisor:restart_child/2). Where its process is held, it counts as up or not by what was done to it; one
    /// that doesn't stay is given up and let go, also where the child doesn't begin then. It waits for the slots.
    pub fn restart_child<R: Wait, S: Seating>(
        &mut self,
        rt: &R,
        alloc: Global,
        access: &mut TableAccess<'_, S>,
        tree: &mut Tree,
        loaded: &Loaded,
        child: &ChildName<'_>,
    ) -> Result<bool, NotRestarted>
        ghost followed: { Followed }
        requires follow { AllFollow followed.first followed.courses self.old access.old }
        ensures restarted { RestartsIn followed.first child.now.supervisor.now child.now.id.now
            (tables_of (modules_in loaded.now)) (scene_at followed tree.old)
            result tree.new self.new access.old access.new }
        ensures longer { AreLonger access.old access.new }
    {
        if !tree.has_one_supervisor(child.supervisor) {
            return Err(NotRestarted {
                error: RestartError::NoSuper,
                given_up: false,
            });
        }
        let members = tree.child_members(child.supervisor, child.id);
        let end = self.end_held(access, members, Stay::UpOrTemporary);
        if let HeldEnd::Stays = end {
            return Ok(true);
        }
        access.knows();
        match tree.restart_child(rt, alloc, access, loaded, child.supervisor, child.id) {
            Ok(stays) => Ok(stays),
            Err(error) => {
                let given_up = was_given_up(end, &error);
                Err(NotRestarted { error, given_up })
            }
        }
    }
}

// Whether what stood for a child was given up: it was held, or it was given up for want of slots.
fn was_given_up(end: HeldEnd, error: &RestartError) -> bool
    ensures { result ≡ was_given_up end error.now }
{
    match (end, error) {
        (HeldEnd::GivenUp, _) => true,
        (_, RestartError::NoSlot) => true,
        _ => false,
    }
}
