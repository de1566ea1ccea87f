//! What the instructions outside a block become, after the point of no return.
ghost use Rattle.std.specs.Prelude.{◌≡◌, ◌∷◌, [], IfOk, OnOk, map, string_bytes};
ghost use Rattle.relup_instruction.specs.Instruction.{purging_of, instruction_of};
ghost use Rattle.appup_file.specs.Instruction.{appup_instruction_of};
ghost use Rattle.relup_row.specs.Release.{relup_app_of, relup_release_of, way_of, app_named};
ghost use Rattle.relup_row.specs.Script.{plain_purging, load_plainly, remove_plainly, leaving, coming, stopping, going, of_app, restarting, in_place, single};
ghost use Rattle.relup_block.specs.Memory.{Appends};

use crate::calls::{push_call, push_start};
use crate::copies::copy_instr;
use crate::release::{RelupApp, Way};
use appup_file::AppupInstr;
use rel_files::StartType;
use relup_block::push_instr;
use relup_instruction::{Instr, PurgeMode, Purging};
use std::alloc::{AllocError, Global};
use std::slice;

// A module with the default words.
fn plain_purging(alloc: Global, name: &str) -> Result<Purging, AllocError>
    ensures { IfOk result (λ p. purging_of p ≡ plain_purging name.now) }
{
    Ok(Purging {
        name: String::from_str(alloc, name)?,
        pre: PurgeMode::Brutal,
        post: PurgeMode::Brutal,
    })
}

// Pushes the load of a module with the default words.
fn push_load(alloc: Global, name: &str, out: &mut Vec<Instr>) -> Result<(), AllocError>
    ensures { OnOk result (Appends out.old.items out.new.items (load_plainly name.now ∷ [])) }
{
    push_instr(Instr::Load(plain_purging(alloc, name)?), out)
}

// Pushes the removal of a module with the default words.
fn push_removal(alloc: Global, name: &str, out: &mut Vec<Instr>) -> Result<(), AllocError>
    ensures { OnOk result (Appends out.old.items out.new.items (remove_plainly name.now ∷ [])) }
{
    push_instr(Instr::Remove(plain_purging(alloc, name)?), out)
}

fn push_loads(alloc: Global, names: &[String], out: &mut Vec<Instr>) -> Result<(), AllocError>
    ensures { OnOk result (Appends out.old.items out.new.items
        (map load_plainly (map string_bytes names.now))) }
{
    for name in names {
        push_load(alloc, name.as_str(), out)?;
    }
    Ok(())
}

fn push_removals(alloc: Global, names: &[String], out: &mut Vec<Instr>) -> Result<(), AllocError>
    ensures { OnOk result (Appends out.old.items out.new.items
        (map remove_plainly (map string_bytes names.now))) }
{
    for name in names {
        push_removal(alloc, name.as_str(), out)?;
    }
    Ok(())
}

// Pushes the instructions by which these modules leave: each is removed, and all are purged together.
fn push_leaving(alloc: Global, names: &[String], out: &mut Vec<Instr>) -> Result<(), AllocError>
    ensures { OnOk result
        (Appends out.old.items out.new.items (leaving (map string_bytes names.now))) }
{
    push_removals(alloc, names, out)?;
    push_instr(Instr::Purge(Vec::from_clones(alloc, names)?), out)
}

fn push_coming(
    alloc: Global,
    start: StartType,
    app: &RelupApp,
    out: &mut Vec<Instr>,
) -> Result<(), AllocError>
    ensures { OnOk result
        (Appends out.old.items out.new.items (coming start (relup_app_of app.now))) }
{
    push_loads(alloc, app.modules.as_slice(), out)?;
    push_start(alloc, start, app.name.as_str(), out)
}

fn push_stopping(alloc: Global, app: &RelupApp, out: &mut Vec<Instr>) -> Result<(), AllocError>
    ensures { OnOk result
        (Appends out.old.items out.new.items (stopping (relup_app_of app.now))) }
{
    push_call(alloc, "stop", app.name.as_str(), out)?;
    push_leaving(alloc, app.modules.as_slice(), out)
}

fn push_going(alloc: Global, app: &RelupApp, out: &mut Vec<Instr>) -> Result<(), AllocError>
    ensures { OnOk result
        (Appends out.old.items out.new.items (going (relup_app_of app.now))) }
{
    push_stopping(alloc, app, out)?;
    push_call(alloc, "unload", app.name.as_str(), out)
}

/// Writes how the target's application of a name comes, started as this type says.
pub fn push_added(
    alloc: Global,
    way: Way<'_>,
    start: StartType,
    name: &str,
    out: &mut Vec<Instr>,
) -> Result<(), AllocError>
    ensures { OnOk result (Appends out.old.items out.new.items
        (of_app (coming start) (app_named name.now (relup_release_of way.entry.target.now)))) }
{
    match way.target.app_named(name) {
        Some(app) => push_coming(alloc, start, app, out),
        None => Ok(()),
    }
}

/// Writes how the application of a name goes that is left.
pub fn push_removed(
    alloc: Global,
    way: Way<'_>,
    name: &str,
    out: &mut Vec<Instr>,
) -> Result<(), AllocError>
    ensures { OnOk result (Appends out.old.items out.new.items
        (of_app going (app_named name.now (relup_release_of way.entry.left.now)))) }
{
    match way.left.app_named(name) {
        Some(app) => push_going(alloc, app, out),
        None => Ok(()),
    }
}

fn push_stopped(
    alloc: Global,
    way: Way<'_>,
    name: &str,
    out: &mut Vec<Instr>,
) -> Result<(), AllocError>
    ensures { OnOk result (Appends out.old.items out.new.items
        (of_app stopping (app_named name.now (relup_release_of way.entry.left.now)))) }
{
    match way.left.app_named(name) {
        Some(app) => push_stopping(alloc, app, out),
        None => Ok(()),
    }
}

fn push_restarted(
    alloc: Global,
    way: Way<'_>,
    name: &str,
    out: &mut Vec<Instr>,
) -> Result<(), AllocError>
    ensures { OnOk result
        (Appends out.old.items out.new.items (restarting (way_of way.entry) name.now)) }
{
    push_stopped(alloc, way, name, out)?;
    match way.target.app_named(name) {
        Some(app) => push_coming(alloc, app.start, app, out),
        None => Ok(()),
    }
}

fn push_in_place(alloc: Global, instr: &Instr, out: &mut Vec<Instr>) -> Result<(), AllocError>
    ensures { OnOk result
        (Appends out.old.items out.new.items (in_place (instruction_of instr.now))) }
{
    match instr {
        Instr::LoadObjectCode(_) | Instr::RestartEmulator => Ok(()),
        instr => push_instr(copy_instr(alloc, instr)?, out),
    }
}

// An instruction outside a block.
pub(crate) fn push_single(
    alloc: Global,
    way: Way<'_>,
    instr: &AppupInstr,
    out: &mut Vec<Instr>,
) -> Result<(), AllocError>
    ensures { OnOk result (Appends out.old.items out.new.items
        (single (way_of way.entry) (appup_instruction_of instr.now))) }
{
    match instr {
        AppupInstr::Update(_) | AppupInstr::LoadModule(_) => Ok(()),
        AppupInstr::AddModule(added) => push_load(alloc, added.name.as_str(), out),
        AppupInstr::DeleteModule(deleted) => push_leaving(
            alloc,
            slice::from_ref(&deleted.name),
            out,
        ),
        AppupInstr::AddApplication(app) => {
            push_added(alloc, way, app.start, app.name.as_str(), out)
        }
        AppupInstr::RemoveApplication(name) => push_removed(alloc, way, name.as_str(), out),
        AppupInstr::RestartApplication(name) => push_restarted(alloc, way, name.as_str(), out),
        AppupInstr::LowLevel(instr) => push_in_place(alloc, instr, out),
    }
}
