//! Instructions of terms.
ghost use Rattle.std.specs.Prelude.{◌≡◌, IfOk};
ghost use Rattle.std.specs.Option.{option_map};
ghost use Rattle.erl_term.specs.Value.{members_of, value_of};
ghost use Rattle.relup_instruction.specs.Parts.{all_in};
ghost use Rattle.appup_file.specs.Instruction.{appup_instruction_of, row_of};
ghost use Rattle.appup_file.specs.Parts.{named_in, other_named_in, headed_in, high_level_in, appup_instruction_in};

use crate::AppupInstr;
use crate::applications::{added_in, app_in};
use crate::modules::{dependent_in, load_in};
use crate::update::update_in;
use erl_term::Term;
use rel_files::text::name_in;
use relup_instruction::instruction_in;
use std::alloc::{AllocError, Global};

// A word, the name of a module or an application, and terms.
fn named_in(
    alloc: Global,
    word: &str,
    name: &str,
    row: &[Term],
) -> Result<Option<AppupInstr>, AllocError>
    ensures { IfOk result (λ o.
        option_map appup_instruction_of o ≡ named_in word.now name.now (members_of row.now)) }
{
    if word == "update" {
        update_in(alloc, name, row)
    } else if word == "load_module" {
        Ok(load_in(alloc, name, row)?.map(AppupInstr::LoadModule))
    } else if word == "add_module" {
        Ok(dependent_in(alloc, name, row)?.map(AppupInstr::AddModule))
    } else {
        other_named_in(alloc, word, name, row)
    }
}

// A word that is none of those above, a name and terms.
fn other_named_in(
    alloc: Global,
    word: &str,
    name: &str,
    row: &[Term],
) -> Result<Option<AppupInstr>, AllocError>
    ensures { IfOk result (λ o.
        option_map appup_instruction_of o ≡ other_named_in word.now name.now (members_of row.now)) }
{
    if word == "delete_module" {
        Ok(dependent_in(alloc, name, row)?.map(AppupInstr::DeleteModule))
    } else if word == "add_application" {
        Ok(added_in(alloc, name, row)?.map(AppupInstr::AddApplication))
    } else {
        app_in(alloc, word, name, row)
    }
}

// What stands after the word of an instruction.
fn headed_in(alloc: Global, word: &str, members: &[Term]) -> Result<Option<AppupInstr>, AllocError>
    ensures { IfOk result (λ o.
        option_map appup_instruction_of o ≡ headed_in word.now (members_of members.now)) }
{
    let Some((name, row)) = members.split_first() else {
        return Ok(None);
    };
    match name_in(name) {
        Some(name) => named_in(alloc, word, name, row),
        None => Ok(None),
    }
}

// An instruction that only an appup may have.
fn high_level_in(alloc: Global, term: &Term) -> Result<Option<AppupInstr>, AllocError>
    ensures { IfOk result (λ o.
        option_map appup_instruction_of o ≡ high_level_in (value_of term.now)) }
{
    match term {
        Term::Tuple(members) => match members.split_first() {
            Some((Term::Atom(word), rest)) => headed_in(alloc, word.as_str(), rest),
            _ => Ok(None),
        },
        _ => Ok(None),
    }
}

// An instruction of an appup.
pub(crate) fn appup_instruction_in(
    alloc: Global,
    term: &Term,
) -> Result<Option<AppupInstr>, AllocError>
    ensures { IfOk result (λ o.
        option_map appup_instruction_of o ≡ appup_instruction_in (value_of term.now)) }
{
    match high_level_in(alloc, term)? {
        Some(instr) => Ok(Some(instr)),
        None => Ok(instruction_in(alloc, term)?.map(AppupInstr::LowLevel)),
    }
}

// Instructions one after another.
pub(crate) fn row_in(alloc: Global, items: &[Term]) -> Result<Option<Vec<AppupInstr>>, AllocError>
    ensures { IfOk result (λ o. option_map (λ v. row_of v.items) o
        ≡ all_in appup_instruction_in (members_of items.now)) }
{
    let mut instrs = Vec::with_capacity(alloc, items.len())?;
    for item in items {
        let Some(instr) = appup_instruction_in(alloc, item)? else {
            return Ok(None);
        };
        instrs.push(instr)?;
    }
    Ok(Some(instrs))
}
