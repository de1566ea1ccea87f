//! The instructions that may stand after the point of no return.
ghost use Rattle.std.specs.Prelude.{◌≡◌, false};
ghost use Rattle.relup_instruction.specs.Instruction.{instruction_of};
ghost use Rattle.script_progress.specs.InMemory.{site_of};
ghost use Rattle.script_progress.specs.Steps.{CarriesOut, CarriesOutLate, GoesByLooks, HasDone, IsLate, Past, progress_of};
ghost use Rattle.relup_exec.specs.Steps.{goes_by_looks};
ghost use Rattle.held_processes.specs.Following.{AreLonger};

use crate::change::change_code;
use crate::load::load;
use crate::release::{Plain, do_plain};
use crate::remove::remove;
use crate::suspend::suspend;
use relup_instruction::Instr;
use script_progress::{Failure, Progress, Sources, apply, on_no_child};
use std::alloc::Global;
use std::sync::Wait;
use table_access::{Seating, TableAccess};

/// Carries out an instruction that may stand after the point of no return, and reports whether the child that it is on, if it
/// is on one, was left as it is. It waits for processes that clients have.
pub fn carry_out_late<R: Wait, S: Seating>(
    progress: &mut Progress,
    rt: &R,
    alloc: Global,
    access: &mut TableAccess<'_, S>,
    sources: &Sources<'_>,
    instr: &Instr,
) -> Result<bool, Failure>
    ghost past: { Past }
    requires late { IsLate (instruction_of instr.now) }
    requires done { HasDone past (progress_of progress.old) progress.old.tree access.old }
    ensures longer { AreLonger access.old access.new }
    ensures carried { CarriesOutLate (site_of sources.now) past (instruction_of instr.now)
        result (progress_of progress.new) progress.new.tree access.old access.new }
    ensures looked { GoesByLooks past (instruction_of instr.now) result
        access.old access.new }
{
    match instr {
        Instr::Apply(call) => apply(progress, rt, alloc, access, sources, call),
        Instr::Remove(purging) => on_no_child(remove(progress, rt, access, purging)),
        _ => on_no_child(carry_out_other(progress, rt, alloc, access, sources, instr)),
    }
}

// One that goes by no look at processes.
fn carry_out_other<R: Wait, S: Seating>(
    progress: &mut Progress,
    rt: &R,
    alloc: Global,
    access: &mut TableAccess<'_, S>,
    sources: &Sources<'_>,
    instr: &Instr,
) -> Result<(), Failure>
    ghost past: { Past }
    requires late { IsLate (instruction_of instr.now) }
    requires other { goes_by_looks (instruction_of instr.now) ≡ false }
    requires done { HasDone past (progress_of progress.old) progress.old.tree access.old }
    ensures longer { AreLonger access.old access.new }
    ensures carried { CarriesOut (site_of sources.now) past false (instruction_of instr.now)
        result (progress_of progress.new) progress.new.tree access.old access.new }
{
    match instr {
        Instr::Suspend(suspensions) => suspend(progress, rt, alloc, access, suspensions),
        Instr::Load(purging) => load(progress, rt, alloc, access, false, purging),
        Instr::CodeChange(conversion) => change_code(progress, alloc, sources, conversion),
        Instr::Resume(names) => {
            do_plain(progress, rt, access, Plain::Resume, names);
            Ok(())
        }
        Instr::Stop(names) => {
            do_plain(progress, rt, access, Plain::Stop, names);
            Ok(())
        }
        Instr::Start(names) => {
            do_plain(progress, rt, access, Plain::Start, names);
            Ok(())
        }
        Instr::Purge(_) => Ok(()),
        Instr::RestartEmulator => Ok(()),
        _ => unreachable!(),
    }
}
