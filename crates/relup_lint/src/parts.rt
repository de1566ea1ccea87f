//! The names in an instruction, by what they are there for.
ghost use Rattle.std.specs.Prelude.{◌≡◌, ◌∷◌, [], ◌++◌, IfOk, OnOk, map, filter, string_bytes};
ghost use Rattle.appup_file.specs.Instruction.{appup_instruction_of};
ghost use Rattle.relup_instruction.specs.Instruction.{suspension_of};
ghost use Rattle.relup_lint.specs.Names.{texts};
ghost use Rattle.relup_lint.specs.Parts.{changed_names, fetched_names, suspended_names, resumed_names, stopped_names, started_names, names_of, needed_part, needing_names, is_zero, has_no_time, names_without_time};

use crate::modules::Modules;
use appup_file::AppupInstr;
use relup_instruction::{Instr, Suspension, Timeout};
use std::alloc::{AllocError, Global};

/// What names in instructions are there for.
#[derive(Clone, Copy)]
pub(crate) enum Part {
    // Their modules are changed.
    Changed,
    // Their object code is fetched.
    Fetched,
    Suspended,
    Resumed,
    Stopped,
    Started,
}

// This name alone.
fn one_text(alloc: Global, name: &str) -> Result<Vec<&str>, AllocError>
    ensures { IfOk result (λ v. texts v.items ≡ name.now ∷ []) }
{
    let mut names = Vec::new(alloc);
    names.push(name)?;
    Ok(names)
}

fn texts_of(alloc: Global, names: &[String]) -> Result<Vec<&str>, AllocError>
    ensures { IfOk result (λ v. texts v.items ≡ map string_bytes names.now) }
{
    let mut texts = Vec::with_capacity(alloc, names.len())?;
    for name in names {
        texts.push(name.as_str())?;
    }
    Ok(texts)
}

fn names_of_suspensions(alloc: Global, suspensions: &[Suspension]) -> Result<Vec<&str>, AllocError>
    ensures { IfOk result (λ v.
        texts v.items ≡ map (λ s. s.name) (map suspension_of suspensions.now)) }
{
    let mut names = Vec::with_capacity(alloc, suspensions.len())?;
    for suspension in suspensions {
        names.push(suspension.name.as_str())?;
    }
    Ok(names)
}

fn changed_names<'a>(
    alloc: Global,
    modules: &Modules<'_, 'a>,
    instr: &'a AppupInstr,
) -> Result<Vec<&'a str>, AllocError>
    ensures { IfOk result (λ v.
        texts v.items ≡ changed_names modules.now (appup_instruction_of instr.now)) }
{
    match instr {
        AppupInstr::Update(update) => one_text(alloc, update.name.as_str()),
        AppupInstr::LoadModule(load) => one_text(alloc, load.name.as_str()),
        AppupInstr::AddModule(module) => one_text(alloc, module.name.as_str()),
        AppupInstr::DeleteModule(module) => one_text(alloc, module.name.as_str()),
        AppupInstr::AddApplication(app) => texts_of(alloc, modules.of(app.name.as_str())),
        AppupInstr::RestartApplication(app) => texts_of(alloc, modules.of(app.as_str())),
        _ => Ok(Vec::new(alloc)),
    }
}

fn fetched_names(alloc: Global, instr: &AppupInstr) -> Result<Vec<&str>, AllocError>
    ensures { IfOk result (λ v.
        texts v.items ≡ fetched_names (appup_instruction_of instr.now)) }
{
    match instr {
        AppupInstr::LowLevel(Instr::LoadObjectCode(fetch)) => texts_of(alloc, &fetch.modules),
        _ => Ok(Vec::new(alloc)),
    }
}

fn suspended_names(alloc: Global, instr: &AppupInstr) -> Result<Vec<&str>, AllocError>
    ensures { IfOk result (λ v.
        texts v.items ≡ suspended_names (appup_instruction_of instr.now)) }
{
    match instr {
        AppupInstr::LowLevel(Instr::Suspend(all)) => names_of_suspensions(alloc, all),
        _ => Ok(Vec::new(alloc)),
    }
}

fn resumed_names(alloc: Global, instr: &AppupInstr) -> Result<Vec<&str>, AllocError>
    ensures { IfOk result (λ v.
        texts v.items ≡ resumed_names (appup_instruction_of instr.now)) }
{
    match instr {
        AppupInstr::LowLevel(Instr::Resume(names)) => texts_of(alloc, names),
        _ => Ok(Vec::new(alloc)),
    }
}

fn stopped_names(alloc: Global, instr: &AppupInstr) -> Result<Vec<&str>, AllocError>
    ensures { IfOk result (λ v.
        texts v.items ≡ stopped_names (appup_instruction_of instr.now)) }
{
    match instr {
        AppupInstr::LowLevel(Instr::Stop(names)) => texts_of(alloc, names),
        _ => Ok(Vec::new(alloc)),
    }
}

fn started_names(alloc: Global, instr: &AppupInstr) -> Result<Vec<&str>, AllocError>
    ensures { IfOk result (λ v.
        texts v.items ≡ started_names (appup_instruction_of instr.now)) }
{
    match instr {
        AppupInstr::LowLevel(Instr::Start(names)) => texts_of(alloc, names),
        _ => Ok(Vec::new(alloc)),
    }
}

/// The names that an instruction has for a part.
pub(crate) fn names_of<'a>(
    alloc: Global,
    part: Part,
    modules: &Modules<'_, 'a>,
    instr: &'a AppupInstr,
) -> Result<Vec<&'a str>, AllocError>
    ensures { IfOk result (λ v.
        texts v.items ≡ names_of part modules.now (appup_instruction_of instr.now)) }
{
    match part {
        Part::Changed => changed_names(alloc, modules, instr),
        Part::Fetched => fetched_names(alloc, instr),
        Part::Suspended => suspended_names(alloc, instr),
        Part::Resumed => resumed_names(alloc, instr),
        Part::Stopped => stopped_names(alloc, instr),
        Part::Started => started_names(alloc, instr),
    }
}

/// The part that names of an instruction need.
pub(crate) fn needed_part(instr: &AppupInstr) -> Part
    ensures { result ≡ needed_part (appup_instruction_of instr.now) }
{
    match instr {
        AppupInstr::LowLevel(Instr::Load(_)) => Part::Fetched,
        AppupInstr::LowLevel(Instr::Suspend(_)) => Part::Resumed,
        AppupInstr::LowLevel(Instr::Resume(_)) => Part::Suspended,
        AppupInstr::LowLevel(Instr::Stop(_)) => Part::Started,
        AppupInstr::LowLevel(Instr::Start(_)) => Part::Stopped,
        _ => Part::Changed,
    }
}

/// The names that need it.
pub(crate) fn needing_names(alloc: Global, instr: &AppupInstr) -> Result<Vec<&str>, AllocError>
    ensures { IfOk result (λ v.
        texts v.items ≡ needing_names (appup_instruction_of instr.now)) }
{
    match instr {
        AppupInstr::Update(update) => texts_of(alloc, &update.dep_mods),
        AppupInstr::LoadModule(load) => texts_of(alloc, &load.dep_mods),
        AppupInstr::AddModule(module) => texts_of(alloc, &module.dep_mods),
        AppupInstr::DeleteModule(module) => texts_of(alloc, &module.dep_mods),
        AppupInstr::LowLevel(Instr::Load(load)) => one_text(alloc, load.name.as_str()),
        AppupInstr::LowLevel(Instr::Suspend(all)) => names_of_suspensions(alloc, all),
        AppupInstr::LowLevel(Instr::Resume(names)) => texts_of(alloc, names),
        AppupInstr::LowLevel(Instr::Stop(names)) => texts_of(alloc, names),
        AppupInstr::LowLevel(Instr::Start(names)) => texts_of(alloc, names),
        _ => Ok(Vec::new(alloc)),
    }
}

fn is_zero(timeout: Timeout) -> bool
    ensures { result ≡ is_zero timeout }
{
    match timeout {
        Timeout::Milliseconds(0) => true,
        _ => false,
    }
}

fn has_no_time(timeout: Option<Timeout>) -> bool
    ensures { result ≡ has_no_time timeout }
{
    match timeout {
        Some(timeout) => is_zero(timeout),
        None => false,
    }
}

fn suspensions_without_time(
    alloc: Global,
    suspensions: &[Suspension],
) -> Result<Vec<&str>, AllocError>
    ensures { IfOk result (λ v. texts v.items ≡ map (λ s. s.name)
        (filter (λ s. has_no_time s.timeout) (map suspension_of suspensions.now))) }
{
    let mut names = Vec::new(alloc);
    for suspension in suspensions {
        if has_no_time(suspension.timeout) {
            names.push(suspension.name.as_str())?;
        }
    }
    Ok(names)
}

/// The modules whose processes get a timeout of 0.
pub(crate) fn names_without_time(alloc: Global, instr: &AppupInstr) -> Result<Vec<&str>, AllocError>
    ensures { IfOk result (λ v.
        texts v.items ≡ names_without_time (appup_instruction_of instr.now)) }
{
    match instr {
        AppupInstr::Update(update) => {
            if is_zero(update.timeout) {
                return one_text(alloc, update.name.as_str());
            }
            Ok(Vec::new(alloc))
        }
        AppupInstr::LowLevel(Instr::Suspend(all)) => suspensions_without_time(alloc, all),
        _ => Ok(Vec::new(alloc)),
    }
}
