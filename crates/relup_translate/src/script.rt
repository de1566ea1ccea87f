//! The script of a way.
ghost use Rattle.std.specs.Prelude.{◌≡◌, ◌++◌, IfOk, OnOk, map};
ghost use Rattle.std.specs.List.{flat_map, list_any};
ghost use Rattle.relup_instruction.specs.Instruction.{script_of};
ghost use Rattle.relup_row.specs.Release.{way_of};
ghost use Rattle.relup_row.specs.Fetches.{mention_of};
ghost use Rattle.relup_row.specs.Script.{mentions, written_fetches, row_script, asks_restart, restart_at_end, script};
ghost use Rattle.relup_translate.specs.Translation.{way_script};
ghost use Rattle.relup_block.specs.Memory.{Appends};
ghost use Rattle.relup_translate.specs.Memory.{row_of_change, rows_of};

use crate::changes::{AppChange, changes};
use relup_block::push_instr;
use relup_instruction::Instr;
use relup_row::{
    Mention, Way, push_added, push_app_modules, push_fetches, push_mentions, push_removed,
    push_row, push_written_fetches, row_asks_restart,
};
use std::alloc::{AllocError, Global};

fn push_change_mentions<'a>(
    way: Way<'a>,
    change: AppChange<'a>,
    out: &mut Vec<Mention<'a>>,
) -> Result<(), AllocError>
    ensures { OnOk result (map mention_of out.new.items ≡ map mention_of out.old.items
        ++ mentions (way_of way.entry) (row_of_change change.entry)) }
{
    match change {
        AppChange::Coming(app) => push_app_modules(way.target, app.name.as_str(), out),
        AppChange::Changing(row) => push_mentions(way, row, out),
        AppChange::Going(_) => Ok(()),
    }
}

fn all_mentions<'a>(
    alloc: Global,
    way: Way<'a>,
    changes: &[AppChange<'a>],
) -> Result<Vec<Mention<'a>>, AllocError>
    ensures { IfOk result (λ v. map mention_of v.items
        ≡ flat_map (mentions (way_of way.entry)) (rows_of changes.now)) }
{
    let mut all = Vec::new(alloc);
    for change in changes {
        push_change_mentions(way, *change, &mut all)?;
    }
    Ok(all)
}

fn push_change_fetches(
    alloc: Global,
    change: AppChange<'_>,
    out: &mut Vec<Instr>,
) -> Result<(), AllocError>
    ensures { OnOk result
        (Appends out.old.items out.new.items (written_fetches (row_of_change change.entry))) }
{
    match change {
        AppChange::Changing(row) => push_written_fetches(alloc, row, out),
        _ => Ok(()),
    }
}

fn push_all_fetches(
    alloc: Global,
    changes: &[AppChange<'_>],
    out: &mut Vec<Instr>,
) -> Result<(), AllocError>
    ensures { OnOk result (Appends out.old.items out.new.items
        (flat_map written_fetches (rows_of changes.now))) }
{
    for change in changes {
        push_change_fetches(alloc, *change, out)?;
    }
    Ok(())
}

fn push_change(
    alloc: Global,
    way: Way<'_>,
    change: AppChange<'_>,
    out: &mut Vec<Instr>,
) -> Result<(), AllocError>
    ensures { OnOk result
        (Appends out.old.items out.new.items
        (row_script (way_of way.entry) (row_of_change change.entry))) }
{
    match change {
        AppChange::Coming(app) => push_added(alloc, way, app.start, app.name.as_str(), out),
        AppChange::Changing(row) => push_row(alloc, way, row, out),
        AppChange::Going(app) => push_removed(alloc, way, app.name.as_str(), out),
    }
}

fn push_changes(
    alloc: Global,
    way: Way<'_>,
    changes: &[AppChange<'_>],
    out: &mut Vec<Instr>,
) -> Result<(), AllocError>
    ensures { OnOk result (Appends out.old.items out.new.items
        (flat_map (row_script (way_of way.entry)) (rows_of changes.now))) }
{
    for change in changes {
        push_change(alloc, way, *change, out)?;
    }
    Ok(())
}

fn change_asks_restart(change: AppChange<'_>) -> bool
    ensures { result ≡ list_any asks_restart (row_of_change change.entry) }
{
    match change {
        AppChange::Changing(row) => row_asks_restart(row),
        _ => false,
    }
}

fn any_asks_restart(changes: &[AppChange<'_>]) -> bool
    ensures { result ≡ list_any (list_any asks_restart) (rows_of changes.now) }
{
    for change in changes {
        if change_asks_restart(*change) {
            return true;
        }
    }
    false
}

fn push_restart(changes: &[AppChange<'_>], out: &mut Vec<Instr>) -> Result<(), AllocError>
    ensures { OnOk result
        (Appends out.old.items out.new.items (restart_at_end (rows_of changes.now))) }
{
    if any_asks_restart(changes) {
        push_instr(Instr::RestartEmulator, out)
    } else {
        Ok(())
    }
}

// The fetches, the point of no return, all else, and a restart after it.
fn push_script(
    alloc: Global,
    way: Way<'_>,
    changes: &[AppChange<'_>],
    out: &mut Vec<Instr>,
) -> Result<(), AllocError>
    ensures { OnOk result (Appends out.old.items out.new.items
        (script (way_of way.entry) (rows_of changes.now))) }
{
    let mentions = all_mentions(alloc, way, changes)?;
    push_fetches(alloc, &mentions, out)?;
    push_all_fetches(alloc, changes, out)?;
    push_instr(Instr::PointOfNoReturn, out)?;
    push_changes(alloc, way, changes, out)?;
    push_restart(changes, out)
}

pub(crate) fn way_script(alloc: Global, way: Way<'_>) -> Result<Vec<Instr>, AllocError>
    ensures { IfOk result (λ v. script_of v.items ≡ way_script (way_of way.entry)) }
{
    let changes = changes(alloc, way)?;
    let mut script = Vec::new(alloc);
    push_script(alloc, way, &changes, &mut script)?;
    Ok(script)
}
