//! `suspend`: processes are held until they are resumed.
ghost use Rattle.held_processes.specs.Course.Operation.{suspend};
ghost use Rattle.held_processes.specs.Following.{AllFollow, AreLonger, Followed};
ghost use Rattle.held_processes.specs.Operations.{IsDone, has_free_user, modules_by_slot};
ghost use Rattle.relup_instruction.specs.Instruction as instruction;
ghost use Rattle.relup_instruction.specs.Instruction.{suspension_of};
ghost use Rattle.script_progress.specs.Script as script;
ghost use Rattle.script_progress.specs.Script.{suspended_in};
ghost use Rattle.script_progress.specs.Steps.{CarriesOut, HasDone, Past, progress_of};
ghost use Rattle.relup_exec.specs.Steps.{AreSuspended};
ghost use Rattle.std.specs.Prelude.{◌≡◌, ◌<◌, [], Bool, OnErr, length, map, slice_index_or, true};

use held_processes::{HeldProcesses, Undone, Users};
use relup_instruction::Suspension;
use script_progress::{Cause, Failure, Progress, Tree};
use std::alloc::Global;
use std::sync::Wait;
use table_access::{Seating, TableAccess};

// The processes of these modules are held until they are resumed.
pub(crate) fn suspend<R: Wait, S: Seating>(
    progress: &mut Progress,
    rt: &R,
    alloc: Global,
    access: &mut TableAccess<'_, S>,
    suspensions: &[Suspension],
) -> Result<(), Failure>
    ghost past: { Past }
    requires done { HasDone past (progress_of progress.old) progress.old.tree access.old }
    ensures longer { AreLonger access.old access.new }
    ensures carried { (s : script.Site) (early : Bool) → CarriesOut s past early
        (instruction.Instruction.suspend (map suspension_of suspensions.now))
        result (progress_of progress.new) progress.new.tree access.old access.new }
{
    hold_all(
        rt,
        alloc,
        access,
        &progress.tree,
        &mut progress.held,
        suspensions,
    )
}

// Holds the processes of these modules, one module after another.
fn hold_all<R: Wait, S: Seating>(
    rt: &R,
    alloc: Global,
    access: &mut TableAccess<'_, S>,
    tree: &Tree,
    held: &mut HeldProcesses,
    suspensions: &[Suspension],
) -> Result<(), Failure>
    ghost followed: { Followed }
    requires follow { AllFollow followed.first followed.courses held.old access.old }
    ensures longer { AreLonger access.old access.new }
    ensures done { AreSuspended followed (modules_by_slot tree.now)
        (suspended_in (map suspension_of suspensions.now)) result held.new access.new }
{
    for at in 0..suspensions.len() {
        if let Err(undone) = hold_next(rt, alloc, access, tree, held, suspensions, at) {
            return Err(Failure {
                cause: Cause::NoMemory,
                modules: at,
                slot: undone.slot,
            });
        }
    }
    Ok(())
}

// Holds the processes of the module at this place.
fn hold_next<R: Wait, S: Seating>(
    rt: &R,
    alloc: Global,
    access: &mut TableAccess<'_, S>,
    tree: &Tree,
    held: &mut HeldProcesses,
    suspensions: &[Suspension],
    at: usize,
) -> Result<(), Undone>
    ghost followed: { Followed }
    requires inside { at < length suspensions.now }
    requires follow { AllFollow followed.first followed.courses held.old access.old }
    ensures longer { AreLonger access.old access.new }
    ensures done { IsDone followed.first (modules_by_slot tree.now)
        (slice_index_or (suspended_in (map suspension_of suspensions.now)) at []) suspend
        followed.courses result held.new access.new }
    ensures asks { OnErr result (has_free_user (modules_by_slot tree.now)
        (slice_index_or (suspended_in (map suspension_of suspensions.now)) at [])
        followed.courses ≡ true) }
{
    let suspension = &suspensions[at];
    let module = suspension.name.as_str();
    held.suspend(rt, alloc, access, &Users { tree, module })
}
