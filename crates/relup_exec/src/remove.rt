//! `remove`: a module isn't loaded any more.
ghost use Rattle.std.specs.Prelude.{◌≡◌, ◌||◌, false};
ghost use Rattle.held_processes.specs.Following.{AllFollow, AreLonger, Followed};
ghost use Rattle.held_processes.specs.Operations.{AreLookedAt, uses_up, modules_by_slot, values_seen};
ghost use Rattle.relup_instruction.specs.Instruction.{purging_of};
ghost use Rattle.relup_instruction.specs.Instruction.Instruction.{remove};
ghost use Rattle.script_progress.specs.Script.{Site};
ghost use Rattle.script_progress.specs.Steps.{CarriesOut, GoesByLooks, HasDone, Past, on_no_child, progress_of};
ghost use Rattle.sup_tree.specs.Tree.{supervises};

use held_processes::Users;
use relup_instruction::Purging;
use script_progress::{Cause, Failure, Progress, failure_at_start};
use std::sync::Wait;
use table_access::{Seating, TableAccess};

// The module isn't loaded any more, unless it runs somewhere.
pub(crate) fn remove<R: Wait, S: Seating>(
    progress: &mut Progress,
    rt: &R,
    access: &mut TableAccess<'_, S>,
    purging: &Purging,
) -> Result<(), Failure>
    ghost past: { Past }
    requires done { HasDone past (progress_of progress.old) progress.old.tree access.old }
    ensures longer { AreLonger access.old access.new }
    ensures carried { (s : Site) → CarriesOut s past false (remove (purging_of purging.now))
        result (progress_of progress.new) progress.new.tree access.old access.new }
    ensures looked { GoesByLooks past (remove (purging_of purging.now)) (on_no_child result)
        access.old access.new }
{
    if is_in_use(progress, rt, access, purging) {
        return Err(failure_at_start(Cause::InUse));
    }
    progress.next.remove(purging.name.as_str());
    Ok(())
}

// Whether a supervisor of a started application uses the module, or a process that is up.
fn is_in_use<R: Wait, S: Seating>(
    progress: &Progress,
    rt: &R,
    access: &mut TableAccess<'_, S>,
    purging: &Purging,
) -> bool
    ghost followed: { Followed }
    requires follow { AllFollow followed.first followed.courses progress.now.held access.old }
    ensures longer { AreLonger access.old access.new }
    ensures reported { result ≡ (supervises (purging_of purging.now).name progress.now.tree
        || uses_up (values_seen access.new) (modules_by_slot progress.now.tree)
        (purging_of purging.now).name followed.courses) }
    ensures follow { AllFollow followed.first followed.courses progress.now.held access.new }
    ensures looked { supervises (purging_of purging.now).name progress.now.tree ≡ false
        → AreLookedAt (modules_by_slot progress.now.tree) (purging_of purging.now).name
        followed.courses access.old access.new }
{
    let users = Users {
        tree: &progress.tree,
        module: purging.name.as_str(),
    };
    progress.tree.supervises(users.module) || progress.held.any_up(rt, access, &users)
}
