//! Copies of the instructions that an appup shares with a script.
ghost use Rattle.std.specs.Prelude.{◌≡◌, IfOk, map, string_bytes};
ghost use Rattle.relup_instruction.specs.Instruction.{fetch_of, suspension_of, purging_of, change_of, conversion_of, call_of, instruction_of};

use erl_term::copy_terms;
use relup_instruction::{Call, Change, Conversion, Fetch, Instr, Purging, Suspension};
use std::alloc::{AllocError, Global};

fn copy_names(names: &Vec<String>) -> Result<Vec<String>, AllocError>
    ensures { IfOk result (λ v. map string_bytes v.items ≡ map string_bytes names.now.items) }
{
    names.clone()
}

fn copy_fetch(fetch: &Fetch) -> Result<Fetch, AllocError>
    ensures { IfOk result (λ f. fetch_of f ≡ fetch_of fetch.now) }
{
    Ok(Fetch {
        app: fetch.app.clone()?,
        vsn: fetch.vsn.clone()?,
        modules: copy_names(&fetch.modules)?,
    })
}

fn copy_suspensions(
    alloc: Global,
    suspensions: &[Suspension],
) -> Result<Vec<Suspension>, AllocError>
    ensures { IfOk result (λ v. map suspension_of v.items ≡ map suspension_of suspensions.now) }
{
    let mut copied = Vec::with_capacity(alloc, suspensions.len())?;
    for suspension in suspensions {
        copied.push(Suspension {
            name: suspension.name.clone()?,
            timeout: suspension.timeout,
        })?;
    }
    Ok(copied)
}

fn copy_purging(purging: &Purging) -> Result<Purging, AllocError>
    ensures { IfOk result (λ p. purging_of p ≡ purging_of purging.now) }
{
    Ok(Purging {
        name: purging.name.clone()?,
        pre: purging.pre,
        post: purging.post,
    })
}

fn copy_changes(alloc: Global, changes: &[Change]) -> Result<Vec<Change>, AllocError>
    ensures { IfOk result (λ v. map change_of v.items ≡ map change_of changes.now) }
{
    let mut copied = Vec::with_capacity(alloc, changes.len())?;
    for change in changes {
        copied.push(Change {
            name: change.name.clone()?,
            extra: change.extra.clone()?,
        })?;
    }
    Ok(copied)
}

fn copy_conversion(alloc: Global, conversion: &Conversion) -> Result<Conversion, AllocError>
    ensures { IfOk result (λ c. conversion_of c ≡ conversion_of conversion.now) }
{
    Ok(Conversion {
        mode: conversion.mode,
        changes: copy_changes(alloc, &conversion.changes)?,
    })
}

fn copy_call(alloc: Global, call: &Call) -> Result<Call, AllocError>
    ensures { IfOk result (λ c. call_of c ≡ call_of call.now) }
{
    Ok(Call {
        name: call.name.clone()?,
        function: call.function.clone()?,
        args: copy_terms(alloc, &call.args)?,
    })
}

/// A copy of an instruction.
pub fn copy_instr(alloc: Global, instr: &Instr) -> Result<Instr, AllocError>
    ensures { IfOk result (λ i. instruction_of i ≡ instruction_of instr.now) }
{
    match instr {
        Instr::LoadObjectCode(fetch) => copy_fetch(fetch).map(Instr::LoadObjectCode),
        Instr::PointOfNoReturn => Ok(Instr::PointOfNoReturn),
        Instr::Suspend(suspensions) => copy_suspensions(alloc, suspensions).map(Instr::Suspend),
        Instr::Load(purging) => copy_purging(purging).map(Instr::Load),
        Instr::CodeChange(change) => copy_conversion(alloc, change).map(Instr::CodeChange),
        Instr::Resume(names) => copy_names(names).map(Instr::Resume),
        Instr::Remove(purging) => copy_purging(purging).map(Instr::Remove),
        Instr::Purge(names) => copy_names(names).map(Instr::Purge),
        Instr::Stop(names) => copy_names(names).map(Instr::Stop),
        Instr::Start(names) => copy_names(names).map(Instr::Start),
        Instr::Apply(call) => copy_call(alloc, call).map(Instr::Apply),
        Instr::SyncNodes(terms) => copy_terms(alloc, terms).map(Instr::SyncNodes),
        Instr::RestartNewEmulator => Ok(Instr::RestartNewEmulator),
        Instr::RestartEmulator => Ok(Instr::RestartEmulator),
    }
}
