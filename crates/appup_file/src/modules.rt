//! Modules of terms: what an appup loads, adds or deletes.
ghost use Rattle.std.specs.Prelude.{◌≡◌, IfOk, map, string_bytes};
ghost use Rattle.std.specs.Option.{option_map};
ghost use Rattle.erl_term.specs.Value.{members_of, value_of};
ghost use Rattle.rel_files.specs.Sketch.{names_in};
ghost use Rattle.appup_file.specs.Instruction.{load_of, dependent_of};
ghost use Rattle.appup_file.specs.Parts.{dep_mods_in, plain_load, purged_load, load_in, dependent_in};

use crate::{Dependent, ModuleLoad};
use erl_term::Term;
use rel_files::text::names_in;
use relup_instruction::PurgeMode;
use relup_instruction::words::purge_mode_in;
use std::alloc::{AllocError, Global};

// The modules on which it depends, none where they are not written.
fn dep_mods_in(alloc: Global, row: &[Term]) -> Result<Option<Vec<String>>, AllocError>
    ensures { IfOk result (λ o.
        option_map (λ v. map string_bytes v.items) o ≡ dep_mods_in (members_of row.now)) }
{
    match row {
        [] => Ok(Some(Vec::new(alloc))),
        [dep_mods] => names_in(alloc, dep_mods),
        _ => Ok(None),
    }
}

impl ModuleLoad {
    // With default purge words.
    fn plain(alloc: Global, name: &str, dep_mods: Vec<String>) -> Result<ModuleLoad, AllocError>
        ensures { IfOk result (λ l.
            load_of l ≡ plain_load name.now (map string_bytes dep_mods.items)) }
    {
        Ok(ModuleLoad {
            name: String::from_str(alloc, name)?,
            pre: PurgeMode::Brutal,
            post: PurgeMode::Brutal,
            dep_mods,
        })
    }
}

fn purged_load(
    alloc: Global,
    name: &str,
    row: (&Term, &Term, &Term),
) -> Result<Option<ModuleLoad>, AllocError>
    ensures { IfOk result (λ o. option_map load_of o ≡ purged_load name.now
        (value_of row.entry.0.now) (value_of row.entry.1.now) (value_of row.entry.2.now)) }
{
    let (pre, post, dep_mods) = row;
    let Some(pre) = purge_mode_in(pre) else {
        return Ok(None);
    };
    let Some(post) = purge_mode_in(post) else {
        return Ok(None);
    };
    let Some(dep_mods) = names_in(alloc, dep_mods)? else {
        return Ok(None);
    };
    Ok(Some(ModuleLoad {
        name: String::from_str(alloc, name)?,
        pre,
        post,
        dep_mods,
    }))
}

fn unpurged_load(
    alloc: Global,
    name: &str,
    dep_mods: &Term,
) -> Result<Option<ModuleLoad>, AllocError>
    ensures { IfOk result (λ o. option_map load_of o
        ≡ option_map (plain_load name.now) (names_in (value_of dep_mods.now))) }
{
    match names_in(alloc, dep_mods)? {
        Some(dep_mods) => Ok(Some(ModuleLoad::plain(alloc, name, dep_mods)?)),
        None => Ok(None),
    }
}

// What is written after the module of a `load_module`.
pub(crate) fn load_in(
    alloc: Global,
    name: &str,
    row: &[Term],
) -> Result<Option<ModuleLoad>, AllocError>
    ensures { IfOk result (λ o.
        option_map load_of o ≡ load_in name.now (members_of row.now)) }
{
    match row {
        [] => Ok(Some(ModuleLoad::plain(alloc, name, Vec::new(alloc))?)),
        [dep_mods] => unpurged_load(alloc, name, dep_mods),
        [_, _] => Ok(None),
        [pre, post, dep_mods] => purged_load(alloc, name, (pre, post, dep_mods)),
        _ => Ok(None),
    }
}

// What is written after a module that is added or deleted.
pub(crate) fn dependent_in(
    alloc: Global,
    name: &str,
    row: &[Term],
) -> Result<Option<Dependent>, AllocError>
    ensures { IfOk result (λ o.
        option_map dependent_of o ≡ dependent_in name.now (members_of row.now)) }
{
    let Some(dep_mods) = dep_mods_in(alloc, row)? else {
        return Ok(None);
    };
    Ok(Some(Dependent {
        name: String::from_str(alloc, name)?,
        dep_mods,
    }))
}
