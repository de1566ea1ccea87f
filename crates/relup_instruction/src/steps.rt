//! Instructions of terms.
ghost use Rattle.std.specs.Prelude.{◌≡◌, IfOk, map, string_bytes};
ghost use Rattle.std.specs.Option.{option_map, option_and_then};
ghost use Rattle.erl_term.specs.Value.{members_of, value_of};
ghost use Rattle.rel_files.specs.Sketch.{names_in};
ghost use Rattle.relup_instruction.specs.Instruction.{instruction_of, script_of};
ghost use Rattle.relup_instruction.specs.Parts.{all_in, bare_in, over_modules, single_in, other_single_in, tagged_in, instruction_in, script_in};

use crate::Instr;
use crate::payloads::{call_in, conversion_in, fetch_in, one_in, purging_in, suspensions_in};
use erl_term::{Term, copy_terms};
use rel_files::text::names_in;
use std::alloc::{AllocError, Global};

fn bare_in(word: &str) -> Option<Instr>
    ensures { option_map instruction_of result ≡ bare_in word.now }
{
    match word {
        "point_of_no_return" => Some(Instr::PointOfNoReturn),
        "restart_new_emulator" => Some(Instr::RestartNewEmulator),
        "restart_emulator" => Some(Instr::RestartEmulator),
        _ => None,
    }
}

fn over_modules(word: &str, names: Vec<String>) -> Option<Instr>
    ensures { option_map instruction_of result
        ≡ over_modules word.now (map string_bytes names.items) }
{
    match word {
        "resume" => Some(Instr::Resume(names)),
        "purge" => Some(Instr::Purge(names)),
        "stop" => Some(Instr::Stop(names)),
        "start" => Some(Instr::Start(names)),
        _ => None,
    }
}

fn of_modules(alloc: Global, word: &str, term: &Term) -> Result<Option<Instr>, AllocError>
    ensures { IfOk result (λ o. option_map instruction_of o
        ≡ option_and_then (over_modules word.now) (names_in (value_of term.now))) }
{
    match names_in(alloc, term)? {
        Some(names) => Ok(over_modules(word, names)),
        None => Ok(None),
    }
}

// A word and one term.
fn single_in(alloc: Global, word: &str, term: &Term) -> Result<Option<Instr>, AllocError>
    ensures { IfOk result (λ o.
        option_map instruction_of o ≡ single_in word.now (value_of term.now)) }
{
    match word {
        "load_object_code" => Ok(fetch_in(alloc, term)?.map(Instr::LoadObjectCode)),
        "suspend" => Ok(suspensions_in(alloc, term)?.map(Instr::Suspend)),
        _ => other_single_in(alloc, word, term),
    }
}

// A word that is none of those above, and one term.
fn other_single_in(alloc: Global, word: &str, term: &Term) -> Result<Option<Instr>, AllocError>
    ensures { IfOk result (λ o.
        option_map instruction_of o ≡ other_single_in word.now (value_of term.now)) }
{
    match word {
        "load" => Ok(purging_in(alloc, term)?.map(Instr::Load)),
        "remove" => Ok(purging_in(alloc, term)?.map(Instr::Remove)),
        "apply" => Ok(call_in(alloc, term)?.map(Instr::Apply)),
        _ => of_modules(alloc, word, term),
    }
}

// A word and terms.
fn tagged_in(alloc: Global, word: &str, members: &[Term]) -> Result<Option<Instr>, AllocError>
    ensures { IfOk result (λ o.
        option_map instruction_of o ≡ tagged_in word.now (members_of members.now)) }
{
    match word {
        "sync_nodes" => Ok(Some(Instr::SyncNodes(copy_terms(alloc, members)?))),
        "code_change" => Ok(conversion_in(alloc, members)?.map(Instr::CodeChange)),
        _ => match one_in(members) {
            Some(only) => single_in(alloc, word, only),
            None => Ok(None),
        },
    }
}

/// The low-level instruction that a term is, if it is one (OTP: appup(4)).
pub fn instruction_in(alloc: Global, term: &Term) -> Result<Option<Instr>, AllocError>
    ensures { IfOk result (λ o. option_map instruction_of o ≡ instruction_in (value_of term.now)) }
{
    match term {
        Term::Atom(word) => Ok(bare_in(word.as_str())),
        Term::Tuple(members) => match members.split_first() {
            Some((Term::Atom(word), rest)) => tagged_in(alloc, word.as_str(), rest),
            _ => Ok(None),
        },
        _ => Ok(None),
    }
}

fn instructions_in(alloc: Global, items: &[Term]) -> Result<Option<Vec<Instr>>, AllocError>
    ensures { IfOk result (λ o. option_map (λ v. script_of v.items) o
        ≡ all_in instruction_in (members_of items.now)) }
{
    let mut script = Vec::with_capacity(alloc, items.len())?;
    for item in items {
        let Some(instr) = instruction_in(alloc, item)? else {
            return Ok(None);
        };
        script.push(instr)?;
    }
    Ok(Some(script))
}

/// The script of these instructions; of none the point of no return alone.
pub fn script_in(alloc: Global, items: &[Term]) -> Result<Option<Vec<Instr>>, AllocError>
    ensures { IfOk result (λ o.
        option_map (λ v. script_of v.items) o ≡ script_in (members_of items.now)) }
{
    if items.split_first().is_some() {
        return instructions_in(alloc, items);
    }
    let mut script = Vec::with_capacity(alloc, 1)?;
    script.push(Instr::PointOfNoReturn)?;
    Ok(Some(script))
}
