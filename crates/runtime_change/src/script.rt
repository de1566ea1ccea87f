//! What another runtime system adds to a script.
ghost use Rattle.std.specs.Prelude.{◌≡◌, ◌∷◌, OnOk, not, filter};
ghost use Rattle.relup_instruction.specs.Instruction.{script_of, instruction_of};
ghost use Rattle.runtime_change.specs.Runtime.{at_start, at_end, is_restart, renewed};

use relup_instruction::{Direction, Instr};
use std::alloc::AllocError;

fn is_restart(instr: &Instr) -> bool
    ensures { result ≡ is_restart (instruction_of instr.now) }
{
    match instr {
        Instr::RestartEmulator => true,
        _ => false,
    }
}

// Removes each restart.
fn leave_others(script: &mut Vec<Instr>)
    ensures { script_of script.new.items
        ≡ filter (λ i. not (is_restart i)) (script_of script.old.items) }
{
    script.retain(|instr| !is_restart(instr));
}

fn put_at_end(holds: bool, script: &mut Vec<Instr>) -> Result<(), AllocError>
    ensures { OnOk result (script_of script.new.items ≡ at_end holds (script_of script.old.items)) }
{
    if holds {
        leave_others(script);
        script.push(Instr::RestartEmulator)?;
    }
    Ok(())
}

fn put_at_start(holds: bool, script: &mut Vec<Instr>) -> Result<(), AllocError>
    ensures { OnOk result
        (script_of script.new.items ≡ at_start holds (script_of script.old.items)) }
{
    if holds {
        script.insert(0, Instr::RestartNewEmulator)?;
    }
    Ok(())
}

/// Adds to the script of a way what another runtime system asks for, and a restart at its end, where one is asked for.
pub(crate) fn renew_script(
    asked: bool,
    direction: Direction,
    changes: bool,
    script: &mut Vec<Instr>,
) -> Result<(), AllocError>
    ensures { OnOk result (script_of script.new.items
        ≡ renewed asked direction changes (script_of script.old.items)) }
{
    match direction {
        Direction::Up => {
            put_at_start(changes, script)?;
            put_at_end(asked, script)
        }
        Direction::Down => put_at_end(asked || changes, script),
    }
}
