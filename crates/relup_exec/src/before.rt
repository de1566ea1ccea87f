//! A script up to its point of no return.
ghost use Rattle.std.specs.Prelude.{◌≡◌, ◌<◌, ◌≤◌, ◌^◌, [], IfErr, IfOk, IfSome, length, vec_capacity};
ghost use Rattle.std.specs.List.{AllByRecursion};
ghost use Rattle.held_processes.specs.Following.{AreLonger, HoldsNothing};
ghost use Rattle.script_progress.specs.Fault.Cause.{no_memory};
ghost use Rattle.script_progress.specs.InMemory.{cause_of, site_of};
ghost use Rattle.relup_exec.specs.Outcome.{IsArmed, IsPointAt, IsRefused, Start};
ghost use Rattle.relup_exec.specs.InMemory.{IsNumbered, armed_of, script_in};
ghost use Rattle.relup_exec.specs.Sites.{IsSeated, LendsSame, site_in, start_in, view_in};
ghost use Rattle.relup_exec.specs.Stepwise.{HasBegun, RunsAll, start_at};
ghost use Rattle.script_progress.specs.Steps.{IsEarly, progress_of};
ghost use Rattle.relup_instruction.specs.Instruction.{script_of};
ghost use Rattle.relup_file.specs.Script.{IsRunnable};
ghost use Rattle.loaded_modules.specs.Loaded.{listed_in};

use crate::armed::{Armed, roll_back_with};
use crate::script_run::ScriptRun;
use crate::{Cause, Failure, Progress, Site};
use proc_table::{HandlerSeat, ProcTable};
use relup_file::is_point;
use relup_instruction::Instr;
use script_progress::Sources;
use std::alloc::Global;
use std::marker::Brand;
use std::sync::Wait;
use table_access::{Lent, Seating, TableAccess};

/// A script of which an instruction failed.
#[derive(Drop)]
pub struct Refused {
    /// The number of the instruction, counted from 1.
    pub instr: u32,
    pub cause: Cause,
}

/// Carries out a script up to its point of no return. Where an instruction fails, all processes that were held by then go back
/// as they were. It waits for processes that clients have. Out of memory before the first instruction is reported of it, and then
/// nothing was tried; so is a script with more instructions than a word of 32 bits numbers.
pub fn run_before<'s, R: Wait>(
    rt: &R,
    alloc: Global,
    site: &mut Site<'_>,
    script: &'s [Instr],
) -> Result<Armed<'s>, Refused>
    requires seated { IsSeated site.old }
    requires free { HoldsNothing (view_in site.old) }
    requires runnable { IsRunnable (script_of script.now) }
    ensures same { LendsSame site.old site.new }
    ensures seated { IsSeated site.new }
    ensures kept { (site.new.tree.now ≡ site.old.tree.now)
        × (listed_in site.new.loaded.now ≡ listed_in site.old.loaded.now) }
    ensures armed { IfOk result (λ a. IsArmed (site_in site.old) (start_in site.old)
        (script_of script.now) (armed_of a) (view_in site.new)) }
    ensures script { IfOk result (λ a. script_in a ≡ script_of script.now) }
    ensures numbered { IfOk result IsNumbered }
    ensures refused { IfErr result (λ e. IsRefused (site_in site.old) (start_in site.old)
        (script_of script.now) e.instr (cause_of e.cause) (view_in site.new)) }
{
    let place = point_in(script);
    let Some(reported) = room_for_reports(alloc, script) else {
        return Err(out_of_memory());
    };
    let sources = Sources {
        list: site.list,
        target: site.target,
        loaded: &*site.loaded,
    };
    let Ok(progress) = Progress::new(alloc, &sources, &*site.tree) else {
        return Err(out_of_memory());
    };
    let mut run = ScriptRun {
        sources: &sources,
        script: &script[..place],
        done: 0,
        reported,
        progress,
    };
    let done = run_early_with(rt, alloc, site.table, &mut *site.seat, &mut run);
    let ScriptRun {
        sources: _sources,
        script: _before,
        done: _done,
        reported,
        progress,
    } = run;
    match done {
        Ok(()) => Ok(Armed {
            script,
            place,
            progress,
            reported,
        }),
        Err(refused) => {
            roll_back_with(site.table, &mut *site.seat, progress);
            Err(refused)
        }
    }
}

// Out of memory before the first instruction.
fn out_of_memory() -> Refused
    ensures { (result.instr ≡ 1) × (cause_of result.cause ≡ no_memory) }
{
    Refused {
        instr: 1,
        cause: Cause::NoMemory,
    }
}

// Room for what is reported of each instruction, where each has a number. Nothing where memory is refused.
fn room_for_reports(alloc: Global, script: &[Instr]) -> Option<Vec<bool>>
    ensures items { IfSome result (λ v. v.items ≡ []) }
    ensures capacity { IfSome result (λ v. length script.now ≤ vec_capacity v) }
    ensures numbered { IfSome result (λ v. length script.now < 2 ^ 32) }
{
    if script.len() > u32::MAX as usize {
        return None;
    }
    Vec::with_capacity(alloc, script.len()).ok()
}

// How many instructions stand before the point of no return.
fn point_in(script: &[Instr]) -> usize
    requires { IsRunnable (script_of script.now) }
    ensures { IsPointAt (script_of script.now) result }
{
    for (i, instr) in script.iter().enumerate() {
        if is_point(instr) {
            return i;
        }
    }
    unreachable!()
}

// Carries out a script whose instructions all stand before the point of no return, by this seat at its table.
fn run_early_with<R: Wait>(
    rt: &R,
    alloc: Global,
    table: &ProcTable,
    seat: &mut HandlerSeat,
    run: &mut ScriptRun<'_>,
) -> Result<(), Refused>
    requires table { seat.old.table ≡ table.now }
    requires early { AllByRecursion IsEarly (script_of run.old.script.now) }
    requires first { run.old.done ≡ 0 }
    requires begun { HasBegun (site_of run.old.sources.now)
        (start_at seat.old.view run.old.progress.tree)
        (progress_of run.old.progress) run.old.progress.tree seat.old.view }
    requires numbered { length run.old.script.now < 2 ^ 32 }
    ensures table { seat.new.table ≡ seat.old.table }
    ensures reported { run.new.reported ≡ run.old.reported }
    ensures ran { RunsAll (site_of run.old.sources.now)
        (start_at seat.old.view run.old.progress.tree) (script_of run.old.script.now)
        result (progress_of run.new.progress) run.new.progress.tree seat.new.view }
{
    let mut done = Ok(());
    let lent = Lent { table, seat };
    let _ = run_early_at::<R, Brand>(rt, alloc, lent, run, &mut done);
    done
}

// Carries out the instructions by an access to the table that is lent, and gives the seat back.
fn run_early_at<'t, R: Wait, S: Seating>(
    rt: &R,
    alloc: Global,
    lent: Lent<'t>,
    run: &mut ScriptRun<'_>,
    done: &mut Result<(), Refused>,
) -> &'t mut HandlerSeat
    requires name { lent.seat.ghost_name ≡ S.name }
    requires table { (lent.seat.now.table ≡ S.table) × (lent.table.now ≡ S.table) }
    requires early { AllByRecursion IsEarly (script_of run.old.script.now) }
    requires first { run.old.done ≡ 0 }
    requires begun { HasBegun (site_of run.old.sources.now)
        (start_at lent.seat.now.view run.old.progress.tree)
        (progress_of run.old.progress) run.old.progress.tree lent.seat.now.view }
    requires numbered { length run.old.script.now < 2 ^ 32 }
    ensures name { result.ghost_name ≡ S.name }
    ensures table { result.now.table ≡ S.table }
    ensures reported { run.new.reported ≡ run.old.reported }
    ensures ran { RunsAll (site_of run.old.sources.now)
        (start_at lent.entry.seat.now.view run.old.progress.tree) (script_of run.old.script.now)
        done.new (progress_of run.new.progress) run.new.progress.tree result.now.view }
{
    let mut access: TableAccess<'t, S> = TableAccess::new(lent);
    *done = run_early(run, rt, alloc, &mut access);
    access.into_seat()
}

// Carries out its instructions, one after another.
fn run_early<R: Wait, S: Seating>(
    run: &mut ScriptRun<'_>,
    rt: &R,
    alloc: Global,
    access: &mut TableAccess<'_, S>,
) -> Result<(), Refused>
    ghost start: { Start }
    requires early { AllByRecursion IsEarly (script_of run.old.script.now) }
    requires first { run.old.done ≡ 0 }
    requires begun { HasBegun (site_of run.old.sources.now) start
        (progress_of run.old.progress) run.old.progress.tree access.old }
    requires since { AreLonger start.first access.old }
    requires numbered { length run.old.script.now < 2 ^ 32 }
    ensures reported { run.new.reported ≡ run.old.reported }
    ensures ran { RunsAll (site_of run.old.sources.now) start (script_of run.old.script.now)
        result (progress_of run.new.progress) run.new.progress.tree access.new }
{
    let script = run.script;
    for (i, instr) in script.iter().enumerate() {
        let done = run.next_early(rt, alloc, access, instr);
        if let Err(Failure { cause, .. }) = done {
            return Err(Refused {
                instr: i as u32 + 1,
                cause,
            });
        }
    }
    Ok(())
}
