//! What a row of instructions becomes: the modules that it loads, its own fetches, and the rest of it.
ghost use Rattle.std.specs.Prelude.{◌≡◌, ◌++◌, OnOk, map, option_to_list, string_bytes};
ghost use Rattle.std.specs.List.{filter_map, list_any};
ghost use Rattle.std.specs.Option.{option_map};
ghost use Rattle.appup_file.specs.Instruction.{appup_instruction_of, row_of};
ghost use Rattle.relup_row.specs.Release.{relup_release_of, way_of};
ghost use Rattle.relup_block.specs.Order.{block_item_of};
ghost use Rattle.relup_row.specs.Fetches.{mention, mention_of};
ghost use Rattle.relup_row.specs.Script.{app_modules, block_item, mentions_by, mentions, written_fetch, written_fetches, row_script, asks_restart};
ghost use Rattle.relup_block.specs.Memory.{Appends};

use crate::copies::copy_instr;
use crate::fetches::Mention;
use crate::release::{RelupRelease, Way};
use crate::single::push_single;
use appup_file::AppupInstr;
use relup_block::{BlockItem, push_block, push_instr};
use relup_instruction::Instr;
use std::alloc::{AllocError, Global};

// Pushes a mention of each of these modules that the target has.
fn push_modules<'a>(
    target: &'a RelupRelease,
    names: &'a [String],
    out: &mut Vec<Mention<'a>>,
) -> Result<(), AllocError>
    ensures { OnOk result (map mention_of out.new.items ≡ map mention_of out.old.items
        ++ filter_map (mention (relup_release_of target.now)) (map string_bytes names.now)) }
{
    for name in names {
        push_module(target, name.as_str(), out)?;
    }
    Ok(())
}

fn push_module<'a>(
    target: &'a RelupRelease,
    name: &'a str,
    out: &mut Vec<Mention<'a>>,
) -> Result<(), AllocError>
    ensures { OnOk result (map mention_of out.new.items ≡ map mention_of out.old.items
        ++ option_to_list (mention (relup_release_of target.now) name.now)) }
{
    let Some(app) = target.owner(name) else {
        return Ok(());
    };
    out.push(Mention { name, app })?;
    Ok(())
}

/// Notes the modules of the target's application of a name.
pub fn push_app_modules<'a>(
    target: &'a RelupRelease,
    name: &str,
    out: &mut Vec<Mention<'a>>,
) -> Result<(), AllocError>
    ensures { OnOk result (map mention_of out.new.items ≡ map mention_of out.old.items
        ++ filter_map (mention (relup_release_of target.now))
        (app_modules name.now (relup_release_of target.now))) }
{
    match target.app_named(name) {
        Some(app) => push_modules(target, app.modules.as_slice(), out),
        None => Ok(()),
    }
}

// The modules that an instruction loads.
fn push_mentions_by<'a>(
    way: Way<'a>,
    instr: &'a AppupInstr,
    out: &mut Vec<Mention<'a>>,
) -> Result<(), AllocError>
    ensures { OnOk result (map mention_of out.new.items ≡ map mention_of out.old.items
        ++ mentions_by (way_of way.entry) (appup_instruction_of instr.now)) }
{
    match instr {
        AppupInstr::Update(update) => push_module(way.target, update.name.as_str(), out),
        AppupInstr::LoadModule(load) => push_module(way.target, load.name.as_str(), out),
        AppupInstr::AddModule(added) => push_module(way.target, added.name.as_str(), out),
        AppupInstr::AddApplication(app) => push_app_modules(way.target, app.name.as_str(), out),
        AppupInstr::RestartApplication(name) => push_app_modules(way.target, name.as_str(), out),
        _ => Ok(()),
    }
}

/// Notes the modules that a row loads.
pub fn push_mentions<'a>(
    way: Way<'a>,
    row: &'a [AppupInstr],
    out: &mut Vec<Mention<'a>>,
) -> Result<(), AllocError>
    ensures { OnOk result (map mention_of out.new.items ≡ map mention_of out.old.items
        ++ mentions (way_of way.entry) (row_of row.now)) }
{
    for instr in row {
        push_mentions_by(way, instr, out)?;
    }
    Ok(())
}

fn push_written_fetch(
    alloc: Global,
    instr: &AppupInstr,
    out: &mut Vec<Instr>,
) -> Result<(), AllocError>
    ensures { OnOk result (Appends out.old.items out.new.items
        (written_fetch (appup_instruction_of instr.now))) }
{
    match instr {
        AppupInstr::LowLevel(instr) => match instr {
            Instr::LoadObjectCode(_) => push_instr(copy_instr(alloc, instr)?, out),
            _ => Ok(()),
        },
        _ => Ok(()),
    }
}

/// Writes the `load_object_code` that a row has itself.
pub fn push_written_fetches(
    alloc: Global,
    row: &[AppupInstr],
    out: &mut Vec<Instr>,
) -> Result<(), AllocError>
    ensures { OnOk result
        (Appends out.old.items out.new.items (written_fetches (row_of row.now))) }
{
    for instr in row {
        push_written_fetch(alloc, instr, out)?;
    }
    Ok(())
}

fn asks_restart(instr: &AppupInstr) -> bool
    ensures { result ≡ asks_restart (appup_instruction_of instr.now) }
{
    matches!(instr, AppupInstr::LowLevel(Instr::RestartEmulator))
}

/// Whether a row asks for a restart of the runtime system.
pub fn row_asks_restart(row: &[AppupInstr]) -> bool
    ensures { result ≡ list_any asks_restart (row_of row.now) }
{
    for instr in row {
        if asks_restart(instr) {
            return true;
        }
    }
    false
}

// An instruction that belongs to a block.
fn block_item(instr: &AppupInstr) -> Option<BlockItem<'_>>
    ensures { option_map block_item_of result ≡ block_item (appup_instruction_of instr.now) }
{
    match instr {
        AppupInstr::Update(update) => Some(BlockItem::Updated(update)),
        AppupInstr::LoadModule(load) => Some(BlockItem::Loaded(load)),
        _ => None,
    }
}

/// Writes what a row becomes after the point of no return.
pub fn push_row(
    alloc: Global,
    way: Way<'_>,
    row: &[AppupInstr],
    out: &mut Vec<Instr>,
) -> Result<(), AllocError>
    ensures { OnOk result
        (Appends out.old.items out.new.items (row_script (way_of way.entry) (row_of row.now))) }
{
    let mut items = Vec::new(alloc);
    for instr in row {
        match block_item(instr) {
            Some(item) => items.push(item)?,
            None => {
                push_block(alloc, way.direction, &items, out)?;
                items.clear();
                push_single(alloc, way, instr, out)?;
            }
        }
    }
    push_block(alloc, way.direction, &items, out)
}
