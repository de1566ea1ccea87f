//! Instructions that may stand before the point of no return.
ghost use Rattle.relup_instruction.specs.Instruction.{instruction_of};
ghost use Rattle.script_progress.specs.InMemory.{site_of};
ghost use Rattle.script_progress.specs.Steps.{CarriesOut, HasDone, IsEarly, Past, progress_of};
ghost use Rattle.std.specs.Prelude.{◌≡◌, true};
ghost use Rattle.held_processes.specs.Following.{AreLonger};

use crate::change::change_code;
use crate::fetch::fetch;
use crate::load::load;
use crate::suspend::suspend;
use relup_instruction::Instr;
use script_progress::{Failure, Progress, Sources, error_term, raise};
use std::alloc::Global;
use std::sync::Wait;
use table_access::{Seating, TableAccess};

/// Carries out an instruction that may stand before the point of no return. It waits for processes that clients have.
pub fn carry_out_early<R: Wait, S: Seating>(
    progress: &mut Progress,
    rt: &R,
    alloc: Global,
    access: &mut TableAccess<'_, S>,
    sources: &Sources<'_>,
    instr: &Instr,
) -> Result<(), Failure>
    ghost past: { Past }
    requires early { IsEarly (instruction_of instr.now) }
    requires done { HasDone past (progress_of progress.old) progress.old.tree access.old }
    ensures longer { AreLonger access.old access.new }
    ensures carried { CarriesOut (site_of sources.now) past true (instruction_of instr.now)
        result (progress_of progress.new) progress.new.tree access.old access.new }
{
    match instr {
        Instr::LoadObjectCode(modules) => fetch(progress, alloc, sources, modules),
        Instr::Suspend(suspensions) => suspend(progress, rt, alloc, access, suspensions),
        Instr::Load(purging) => load(progress, rt, alloc, access, true, purging),
        Instr::CodeChange(conversion) => change_code(progress, alloc, sources, conversion),
        Instr::Apply(call) => Err(raise(error_term(call))),
        _ => unreachable!(),
    }
}
