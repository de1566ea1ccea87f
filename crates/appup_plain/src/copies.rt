//! Copies of the instructions of an appup.
ghost use Rattle.std.specs.Prelude.{◌≡◌, IfOk, map, string_bytes};
ghost use Rattle.appup_file.specs.Instruction.{change_of, update_of, load_of, dependent_of, added_of, appup_instruction_of, row_of};

use appup_file::{AddedApp, AppupInstr, Dependent, ModuleLoad, StateChange, Update};
use relup_row::copy_instr;
use std::alloc::{AllocError, Global};

fn copy_names(names: &Vec<String>) -> Result<Vec<String>, AllocError>
    ensures { IfOk result (λ v. map string_bytes v.items ≡ map string_bytes names.now.items) }
{
    names.clone()
}

fn copy_change(change: &StateChange) -> Result<StateChange, AllocError>
    ensures { IfOk result (λ c. change_of c ≡ change_of change.now) }
{
    match change {
        StateChange::Soft => Ok(StateChange::Soft),
        StateChange::Advanced(extra) => Ok(StateChange::Advanced(extra.clone()?)),
    }
}

fn copy_update(update: &Update) -> Result<Update, AllocError>
    ensures { IfOk result (λ u. update_of u ≡ update_of update.now) }
{
    Ok(Update {
        name: update.name.clone()?,
        mod_type: update.mod_type,
        timeout: update.timeout,
        change: copy_change(&update.change)?,
        pre: update.pre,
        post: update.post,
        dep_mods: copy_names(&update.dep_mods)?,
    })
}

fn copy_load(load: &ModuleLoad) -> Result<ModuleLoad, AllocError>
    ensures { IfOk result (λ l. load_of l ≡ load_of load.now) }
{
    Ok(ModuleLoad {
        name: load.name.clone()?,
        pre: load.pre,
        post: load.post,
        dep_mods: copy_names(&load.dep_mods)?,
    })
}

fn copy_dependent(dependent: &Dependent) -> Result<Dependent, AllocError>
    ensures { IfOk result (λ d. dependent_of d ≡ dependent_of dependent.now) }
{
    Ok(Dependent {
        name: dependent.name.clone()?,
        dep_mods: copy_names(&dependent.dep_mods)?,
    })
}

fn copy_added(app: &AddedApp) -> Result<AddedApp, AllocError>
    ensures { IfOk result (λ a. added_of a ≡ added_of app.now) }
{
    Ok(AddedApp {
        name: app.name.clone()?,
        start: app.start,
    })
}

/// A copy of an instruction.
pub fn copy_appup_instr(alloc: Global, instr: &AppupInstr) -> Result<AppupInstr, AllocError>
    ensures { IfOk result (λ i. appup_instruction_of i ≡ appup_instruction_of instr.now) }
{
    match instr {
        AppupInstr::Update(update) => copy_update(update).map(AppupInstr::Update),
        AppupInstr::LoadModule(load) => copy_load(load).map(AppupInstr::LoadModule),
        AppupInstr::AddModule(added) => copy_dependent(added).map(AppupInstr::AddModule),
        AppupInstr::DeleteModule(gone) => copy_dependent(gone).map(AppupInstr::DeleteModule),
        AppupInstr::AddApplication(app) => copy_added(app).map(AppupInstr::AddApplication),
        AppupInstr::RemoveApplication(app) => app.clone().map(AppupInstr::RemoveApplication),
        AppupInstr::RestartApplication(app) => app.clone().map(AppupInstr::RestartApplication),
        AppupInstr::LowLevel(instr) => copy_instr(alloc, instr).map(AppupInstr::LowLevel),
    }
}

// A copy of a row of instructions.
pub(crate) fn copy_row(alloc: Global, row: &[AppupInstr]) -> Result<Vec<AppupInstr>, AllocError>
    ensures { IfOk result (λ v. row_of v.items ≡ row_of row.now) }
{
    let mut copied = Vec::with_capacity(alloc, row.len())?;
    for instr in row {
        copied.push(copy_appup_instr(alloc, instr)?)?;
    }
    Ok(copied)
}
