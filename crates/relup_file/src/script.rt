//! Whether a script can be run.
ghost use Rattle.std.specs.Prelude.{◌≡◌, ◌+◌, ◌<◌, ◌^◌, ◌↔◌, length, IsOk, None, Ok, Err};
ghost use Rattle.std.specs.Option.{option_map};
ghost use Rattle.relup_instruction.specs.Instruction.{instruction_of, script_of};
ghost use Rattle.relup_file.specs.Script.{is_point, is_supported, may_precede, may_follow, is_restart, restarts, may_stand, number_at, fault_at, part_fault, split_point, script_fault, IsRunnable, IsScriptFault};

use crate::ScriptFault;
use crate::calls::{is_error, is_supported_call};
use relup_instruction::Instr;

// A side of the point of no return.
#[derive(Clone, Copy)]
pub(crate) enum Side {
    Early,
    Late,
}

/// Whether a script can be run: it has one point of no return, each of its instructions is run on its side of it, and a restart
/// of the runtime system stands at its end alone.
pub fn check(script: &[Instr]) -> Result<(), ScriptFault>
    ensures runnable { IsOk result ↔ IsRunnable (script_of script.now) }

    // The fault is reported that the script has.
    ensures fault { (f : ScriptFault) → (result ≡ Err f) ↔ IsScriptFault (script_of script.now) f }
{
    match fault_of(script) {
        Some(fault) => Err(fault),
        None => Ok(()),
    }
}

/// Whether a script asks for a restart of the runtime system.
pub fn restarts(script: &[Instr]) -> bool
    ensures { result ≡ restarts (script_of script.now) }
{
    for instr in script {
        if is_restart(instr) {
            return true;
        }
    }
    false
}

// The fault of a script.
fn fault_of(script: &[Instr]) -> Option<ScriptFault>
    ensures { result ≡ script_fault (script_of script.now) }
{
    let Some((before, after)) = split_point(script) else {
        return Some(ScriptFault::NoPoint);
    };
    if split_point(after).is_some() {
        return Some(ScriptFault::TwoPoints);
    }
    match part_fault(Side::Early, 0, before) {
        Some(fault) => Some(fault),
        None => part_fault(Side::Late, before.len() + 1, after),
    }
}

// What stands before and after the first point of no return.
fn split_point(script: &[Instr]) -> Option<(&[Instr], &[Instr])>
    ensures { option_map (λ p. (script_of p.0.now, script_of p.1.now)) result
        ≡ split_point (script_of script.now) }
{
    for (i, instr) in script.iter().enumerate() {
        if is_point(instr) {
            return Some((&script[..i], &script[i + 1..]));
        }
    }
    None
}

// The first fault on a side, after so many instructions.
fn part_fault(side: Side, before: usize, part: &[Instr]) -> Option<ScriptFault>
    requires { before + length part.now < 2 ^ 63 }
    ensures { result ≡ part_fault side before (script_of part.now) }
{
    for (i, instr) in part.iter().enumerate() {
        let is_last = part[i + 1..].is_empty();
        if let Some(fault) = fault_at(side, is_last, before + i + 1, instr) {
            return Some(fault);
        }
    }
    None
}

// What is wrong with an instruction at this place, which is the last one of its side or another one.
fn fault_at(side: Side, is_last: bool, place: usize, instr: &Instr) -> Option<ScriptFault>
    ensures { result ≡ fault_at side is_last place (instruction_of instr.now) }
{
    if !is_supported(instr) {
        return Some(ScriptFault::Unsupported(number_at(place)));
    }
    if may_stand(side, is_last, instr) {
        None
    } else {
        Some(ScriptFault::Misplaced(number_at(place)))
    }
}

// The number of the instruction at a place, counted from 1.
fn number_at(place: usize) -> u32
    ensures { result ≡ number_at place }
{
    u32::try_from(place).unwrap_or(u32::MAX)
}

/// Whether it is the point of no return.
pub fn is_point(instr: &Instr) -> bool
    ensures { result ≡ is_point (instruction_of instr.now) }
{
    matches!(instr, Instr::PointOfNoReturn)
}

fn is_supported(instr: &Instr) -> bool
    ensures { result ≡ is_supported (instruction_of instr.now) }
{
    match instr {
        Instr::Apply(call) => is_supported_call(call),
        Instr::SyncNodes(_) | Instr::RestartNewEmulator => false,
        _ => true,
    }
}

fn may_precede(instr: &Instr) -> bool
    ensures { result ≡ may_precede (instruction_of instr.now) }
{
    match instr {
        Instr::LoadObjectCode(_) => true,
        Instr::Suspend(_) => true,
        Instr::Load(_) => true,
        Instr::CodeChange(_) => true,
        Instr::Apply(call) => is_error(call),
        _ => false,
    }
}

fn may_follow(instr: &Instr) -> bool
    ensures { result ≡ may_follow (instruction_of instr.now) }
{
    !matches!(instr, Instr::LoadObjectCode(_) | Instr::PointOfNoReturn)
}

fn is_restart(instr: &Instr) -> bool
    ensures { result ≡ is_restart (instruction_of instr.now) }
{
    matches!(instr, Instr::RestartEmulator)
}

fn may_stand(side: Side, is_last: bool, instr: &Instr) -> bool
    ensures { result ≡ may_stand side is_last (instruction_of instr.now) }
{
    match side {
        Side::Early => may_precede(instr),
        Side::Late => may_follow(instr) && (is_last || !is_restart(instr)),
    }
}
