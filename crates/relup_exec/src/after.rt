//! A script after its point of no return.
ghost use Rattle.std.specs.Prelude.{◌≡◌, ◌<◌, ◌^◌, IfErr, IfOk, OnErr, OnOk, length};
ghost use Rattle.script_progress.specs.InMemory.{cause_of, site_of};
ghost use Rattle.relup_instruction.specs.Instruction.{script_of};
ghost use Rattle.relup_exec.specs.Outcome.{IsArmed, IsBrokenFrom, IsFinishedFrom, Start};
ghost use Rattle.relup_exec.specs.InMemory.{IsNumbered, armed_in, armed_of, script_in};
ghost use Rattle.relup_exec.specs.Sites.{IsSeated, LendsSame, site_in, some_start, view_in};
ghost use Rattle.loaded_modules.specs.Loaded.{listed_in};

use crate::armed::Armed;
use crate::script_run::{Ended, ScriptRun};
use crate::{Cause, Site};
use proc_table::{HandlerSeat, ProcTable};
use script_progress::Sources;
use std::alloc::Global;
use std::marker::Brand;
use std::sync::Wait;
use table_access::{Lent, Seating, TableAccess};

/// A script was carried out to its end.
#[derive(Clone, Copy)]
pub struct Done;

/// A script of which an instruction after the point of no return failed.
#[derive(Drop)]
pub struct Failed {
    /// The number of the instruction, counted from 1.
    pub instr: u32,
    pub cause: Cause,
}

// From where a script started. It exists in the proofs alone.
trait Beginning {
    ghost start: { Start };
}

impl Beginning for Brand {
    ghost start = { some_start };
}

impl Armed<'_> {
    /// Carries out the script from its point of no return on. What is started and loaded then stands in the site. Where an
    /// instruction fails, that stays as it was, and what was held is let go with the changes made so far. No instruction is
    /// judged by a view from before this call. It waits for processes that clients have.
    pub fn run_after<R: Wait>(
        self,
        rt: &R,
        alloc: Global,
        site: &mut Site<'_>,
    ) -> Result<Done, Failed>
        ghost start: { Start }
        requires seated { IsSeated site.old }
        requires armed { IsArmed (site_in site.old) start (script_in self) (armed_of self)
            (view_in site.old) }
        requires numbered { IsNumbered self }
        ensures same { LendsSame site.old site.new }
        ensures seated { IsSeated site.new }
        ensures finished { OnOk result (IsFinishedFrom (site_in site.old) start
            (script_in self.entry) (view_in site.old) (listed_in site.new.loaded.now)
            site.new.tree.now (view_in site.new)) }
        ensures broken { IfErr result (λ e. IsBrokenFrom (site_in site.old) start
            (script_in self.entry) (view_in site.old) e.instr (cause_of e.cause)
            (view_in site.new)) }
        ensures kept { OnErr result ((site.new.tree.now ≡ site.old.tree.now)
            × (listed_in site.new.loaded.now ≡ listed_in site.old.loaded.now)) }
    {
        let sources = Sources {
            list: site.list,
            target: site.target,
            loaded: &*site.loaded,
        };
        let Armed {
            script,
            place,
            progress,
            reported,
        } = self;
        let run = ScriptRun {
            sources: &sources,
            script,
            done: place,
            reported,
            progress,
        };
        match run_late_with(rt, alloc, site.table, &mut *site.seat, run) {
            Ok(Ended { tree, loaded }) => {
                *site.tree = tree;
                *site.loaded = loaded;
                Ok(Done)
            }
            Err(failed) => Err(failed),
        }
    }
}

// Carries out a script that has come to its point of no return, by this seat at its table.
fn run_late_with<R: Wait>(
    rt: &R,
    alloc: Global,
    table: &ProcTable,
    seat: &mut HandlerSeat,
    run: ScriptRun<'_>,
) -> Result<Ended, Failed>
    ghost start: { Start }
    requires table { seat.old.table ≡ table.now }
    requires armed { IsArmed (site_of run.sources.now) start (script_of run.script.now)
        (armed_in run) seat.old.view }
    requires numbered { length run.script.now < 2 ^ 32 }
    ensures table { seat.new.table ≡ seat.old.table }
    ensures finished { IfOk result (λ e. IsFinishedFrom (site_of run.entry.sources.now) start
        (script_of run.entry.script.now) seat.old.view (listed_in e.loaded) e.tree
        seat.new.view) }
    ensures broken { IfErr result (λ e. IsBrokenFrom (site_of run.entry.sources.now) start
        (script_of run.entry.script.now) seat.old.view e.instr (cause_of e.cause)
        seat.new.view) }
{
    let mut ended = Err(Failed {
        instr: 0,
        cause: Cause::NoMemory,
    });
    let lent = Lent { table, seat };
    let _ = run_late_at::<R, Brand, Brand>(rt, alloc, lent, run, &mut ended);
    ended
}

// Carries out the rest of the script by an access to the table that is lent, and gives the seat back.
fn run_late_at<'t, R: Wait, S: Seating, B: Beginning>(
    rt: &R,
    alloc: Global,
    lent: Lent<'t>,
    run: ScriptRun<'_>,
    ended: &mut Result<Ended, Failed>,
) -> &'t mut HandlerSeat
    requires name { lent.seat.ghost_name ≡ S.name }
    requires table { (lent.seat.now.table ≡ S.table) × (lent.table.now ≡ S.table) }
    requires armed { IsArmed (site_of run.sources.now) B.start (script_of run.script.now)
        (armed_in run) lent.seat.now.view }
    requires numbered { length run.script.now < 2 ^ 32 }
    ensures name { result.ghost_name ≡ S.name }
    ensures table { result.now.table ≡ S.table }
    ensures finished { IfOk ended.new (λ e. IsFinishedFrom (site_of run.entry.sources.now) B.start
        (script_of run.entry.script.now) lent.entry.seat.now.view (listed_in e.loaded) e.tree
        result.now.view) }
    ensures broken { IfErr ended.new (λ e. IsBrokenFrom (site_of run.entry.sources.now) B.start
        (script_of run.entry.script.now) lent.entry.seat.now.view e.instr (cause_of e.cause)
        result.now.view) }
{
    let mut access: TableAccess<'t, S> = TableAccess::new(lent);
    *ended = run_late(run, rt, alloc, &mut access);
    access.into_seat()
}

// Carries out its instructions from the point of no return on, one after another.
fn run_late<R: Wait, S: Seating>(
    mut run: ScriptRun<'_>,
    rt: &R,
    alloc: Global,
    access: &mut TableAccess<'_, S>,
) -> Result<Ended, Failed>
    ghost start: { Start }
    requires armed { IsArmed (site_of run.sources.now) start (script_of run.script.now)
        (armed_in run) access.old }
    requires numbered { length run.script.now < 2 ^ 32 }
    ensures finished { IfOk result (λ e. IsFinishedFrom (site_of run.entry.sources.now) start
        (script_of run.entry.script.now) access.old (listed_in e.loaded) e.tree access.new) }
    ensures broken { IfErr result (λ e. IsBrokenFrom (site_of run.entry.sources.now) start
        (script_of run.entry.script.now) access.old e.instr (cause_of e.cause) access.new) }
{
    let script = run.script;
    let place = run.done;
    run.pass_point(access);
    for i in place + 1..script.len() {
        let instr = &script[i];
        match run.next_late(rt, alloc, access, instr) {
            Ok(_) => {}
            Err(failure) => return Err(run.close(access, failure)),
        }
    }
    Ok(run.end(access))
}
