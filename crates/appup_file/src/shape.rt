//! Where a term says no appup.
ghost use Rattle.std.specs.Prelude.{◌≡◌, IfOk};
ghost use Rattle.std.specs.Option.{option_map};
ghost use Rattle.erl_term.specs.Value.{members_of, value_of};
ghost use Rattle.appup_file.specs.Shape.{first_misshapen, misshapen_instruction, instructions_in, misshapen_entry, shape_fault};

use crate::entries::other_version_in;
use crate::steps::appup_instruction_in;
use erl_term::Term;
use rel_files::parts::{list_in, pair_in};
use relup_file::outline::outer_in;
use relup_instruction::Direction;
use std::alloc::{AllocError, Global};

/// What is none in a term that says no appup. Entries and instructions are counted from 1.
#[derive(Clone, Copy)]
pub enum ShapeFault {
    /// The term is no `{Vsn, [Entry], [Entry]}`.
    Outline,
    /// The entry of this direction and number is no `{Vsn, [Instr]}`.
    Entry(Direction, usize),
    /// The instruction of this number, the second one, is none. The direction and the first number are its entry's.
    Instruction(Direction, usize, usize),
}

// The first of these instructions that is none, in the entry of this number.
fn misshapen_instructions(
    alloc: Global,
    direction: Direction,
    entry: usize,
    instrs: &[Term],
) -> Result<Option<ShapeFault>, AllocError>
    ensures { IfOk result (λ o.
        o ≡ first_misshapen (misshapen_instruction direction entry) 1 (members_of instrs.now)) }
{
    for (i, instr) in instrs.iter().enumerate() {
        if appup_instruction_in(alloc, instr)?.is_none() {
            return Ok(Some(ShapeFault::Instruction(direction, entry, i + 1)));
        }
    }
    Ok(None)
}

// The instructions of an entry that has a version, whatever they are.
fn instructions_in(alloc: Global, entry: &Term) -> Result<Option<&[Term]>, AllocError>
    ensures { IfOk result (λ o.
        option_map (λ is. members_of is.now) o ≡ instructions_in (value_of entry.now)) }
{
    let Some((vsn, instrs)) = pair_in(entry) else {
        return Ok(None);
    };
    match other_version_in(alloc, vsn)? {
        Some(_) => Ok(list_in(instrs)),
        None => Ok(None),
    }
}

fn misshapen_entry(
    alloc: Global,
    direction: Direction,
    number: usize,
    entry: &Term,
) -> Result<Option<ShapeFault>, AllocError>
    ensures { IfOk result (λ o. o ≡ misshapen_entry direction number (value_of entry.now)) }
{
    match instructions_in(alloc, entry)? {
        Some(instrs) => misshapen_instructions(alloc, direction, number, instrs),
        None => Ok(Some(ShapeFault::Entry(direction, number))),
    }
}

fn misshapen_entries(
    alloc: Global,
    direction: Direction,
    entries: &[Term],
) -> Result<Option<ShapeFault>, AllocError>
    ensures { IfOk result (λ o.
        o ≡ first_misshapen (misshapen_entry direction) 1 (members_of entries.now)) }
{
    for (i, entry) in entries.iter().enumerate() {
        if let Some(fault) = misshapen_entry(alloc, direction, i + 1, entry)? {
            return Ok(Some(fault));
        }
    }
    Ok(None)
}

/// What is none first in a term that says no appup: its outline, or else an entry or an instruction, the upgrades before the
/// downgrades. There is nothing where it says one.
pub fn shape_fault(alloc: Global, term: &Term) -> Result<Option<ShapeFault>, AllocError>
    ensures { IfOk result (λ o. o ≡ shape_fault (value_of term.now)) }
{
    let Some(outline) = outer_in(alloc, term)? else {
        return Ok(Some(ShapeFault::Outline));
    };
    match misshapen_entries(alloc, Direction::Up, outline.ups)? {
        Some(fault) => Ok(Some(fault)),
        None => misshapen_entries(alloc, Direction::Down, outline.downs),
    }
}
