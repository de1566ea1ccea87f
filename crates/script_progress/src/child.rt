//! Calls on children of supervisors (OTP: supervisor:terminate_child/2, delete_child/2 and restart_child/2).
ghost use Rattle.std.specs.Prelude.{◌≡◌, if◌then◌else◌};
ghost use Rattle.erl_term.specs.Value.{members_of};
ghost use Rattle.relup_instruction.specs.Instruction.{call_of};
ghost use Rattle.script_progress.specs.Calls.ChildCall.{terminates, deletes, restarts};
ghost use Rattle.script_progress.specs.Calls.{child_call, second_atom};
ghost use Rattle.script_progress.specs.Children.{CallsChild, child_call_of, restart_cause};
ghost use Rattle.script_progress.specs.InMemory.{cause_of};
ghost use Rattle.script_progress.specs.Steps.{HasDone, Past, progress_of};
ghost use Rattle.held_processes.specs.Following.{AreLonger};

use crate::calls::first_atom;
use crate::cause::failure_at_start;
use crate::{Cause, Failure, Progress};
use erl_term::Term;
use held_processes::{ChildName, NotRestarted};
use relup_instruction::Call;
use std::alloc::Global;
use std::sync::Wait;
use sup_tree::RestartError;
use table_access::{Seating, TableAccess};

// What a call does to a child of a supervisor.
pub(crate) enum ChildCall<'a> {
    Terminates(ChildName<'a>),
    Deletes(ChildName<'a>),
    Restarts(ChildName<'a>),
    Nothing,
}

// A call on a child of a supervisor, which reports whether the child was left as it is.
pub(crate) fn call_child<R: Wait, S: Seating>(
    progress: &mut Progress,
    rt: &R,
    alloc: Global,
    access: &mut TableAccess<'_, S>,
    call: ChildCall<'_>,
) -> Result<bool, Failure>
    ghost past: { Past }
    requires done { HasDone past (progress_of progress.old) progress.old.tree access.old }
    ensures longer { AreLonger access.old access.new }
    ensures called { CallsChild past (child_call_of call.entry)
        result (progress_of progress.new) progress.new.tree
        access.old access.new }
{
    match call {
        ChildCall::Terminates(child) => terminate_child(progress, rt, access, &child),
        ChildCall::Deletes(child) => delete_child(progress, rt, access, &child),
        ChildCall::Restarts(child) => restart_child(progress, rt, alloc, access, &child),
        ChildCall::Nothing => Ok(false),
    }
}

// The child is terminated, if its supervisor has it.
fn terminate_child<R: Wait, S: Seating>(
    progress: &mut Progress,
    rt: &R,
    access: &mut TableAccess<'_, S>,
    child: &ChildName<'_>,
) -> Result<bool, Failure>
    ghost past: { Past }
    requires done { HasDone past (progress_of progress.old) progress.old.tree access.old }
    ensures longer { AreLonger access.old access.new }
    ensures called { CallsChild past (terminates child.now.supervisor.now child.now.id.now)
        result (progress_of progress.new) progress.new.tree
        access.old access.new }
{
    match progress
        .held
        .terminate_child(rt, access, &mut progress.tree, child)
    {
        Ok(()) => Ok(false),
        Err(_) => Err(failure_at_start(Cause::NoSuper)),
    }
}

// The child is deleted, unless it is up.
fn delete_child<R: Wait, S: Seating>(
    progress: &mut Progress,
    rt: &R,
    access: &mut TableAccess<'_, S>,
    child: &ChildName<'_>,
) -> Result<bool, Failure>
    ghost past: { Past }
    requires done { HasDone past (progress_of progress.old) progress.old.tree access.old }
    ensures longer { AreLonger access.old access.new }
    ensures called { CallsChild past (deletes child.now.supervisor.now child.now.id.now)
        result (progress_of progress.new) progress.new.tree
        access.old access.new }
{
    match progress
        .held
        .delete_child(rt, access, &mut progress.tree, child)
    {
        Ok(stays) => Ok(stays),
        Err(_) => Err(failure_at_start(Cause::NoSuper)),
    }
}

// The child begins again, with the tables that are loaded, unless it stays.
fn restart_child<R: Wait, S: Seating>(
    progress: &mut Progress,
    rt: &R,
    alloc: Global,
    access: &mut TableAccess<'_, S>,
    child: &ChildName<'_>,
) -> Result<bool, Failure>
    ghost past: { Past }
    requires done { HasDone past (progress_of progress.old) progress.old.tree access.old }
    ensures longer { AreLonger access.old access.new }
    ensures called { CallsChild past (restarts child.now.supervisor.now child.now.id.now)
        result (progress_of progress.new) progress.new.tree
        access.old access.new }
{
    match progress.held.restart_child(
        rt,
        alloc,
        access,
        &mut progress.tree,
        &progress.next,
        child,
    ) {
        Ok(stays) => Ok(stays),
        Err(error) => Err(not_restarted(error)),
    }
}

// How a call fails whose child didn't begin again.
fn not_restarted(error: NotRestarted) -> Failure
    ensures cause { cause_of result.cause ≡ restart_cause error.error }
    ensures modules { result.modules ≡ (if error.given_up then 1 else 0) }
{
    Failure {
        cause: restart_cause(error.error),
        modules: if error.given_up { 1 } else { 0 },
        slot: 0,
    }
}

// Why a script fails where a child doesn't begin again.
fn restart_cause(error: RestartError) -> Cause
    ensures { cause_of result ≡ restart_cause error }
{
    match error {
        RestartError::NoSuper => Cause::NoSuper,
        RestartError::NoTable(_name) => Cause::NoTable,
        RestartError::Unsupported => Cause::Unsupported,
        RestartError::NoSlot => Cause::NoSlot,
        RestartError::NoMemory => Cause::NoMemory,
    }
}

// What a call does to a child of a supervisor.
pub(crate) fn child_call(call: &Call) -> ChildCall<'_>
    ensures { child_call_of result ≡ child_call (call_of call.now) }
{
    let args = call.args.as_slice();
    let child = ChildName {
        supervisor: first_atom(args),
        id: second_atom(args),
    };
    match call.function.as_str() {
        "terminate_child" => ChildCall::Terminates(child),
        "delete_child" => ChildCall::Deletes(child),
        "restart_child" => ChildCall::Restarts(child),
        _ => ChildCall::Nothing,
    }
}

// The id of a child that a call gives.
fn second_atom(args: &[Term]) -> &str
    ensures { result.now ≡ second_atom (members_of args.now) }
{
    match args.split_first() {
        Some((_, others)) => first_atom(others),
        None => "",
    }
}
