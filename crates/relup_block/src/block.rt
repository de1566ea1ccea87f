//! The instructions of a block.
ghost use Rattle.std.specs.Prelude.{◌≡◌, ◌∷◌, [], List, IfOk, OnOk, map, string_bytes, filter, reverse};
ghost use Rattle.std.specs.List.{filter_map};
ghost use Rattle.std.specs.Option.{option_map};
ghost use Rattle.relup_instruction.specs.Instruction.{suspension_of, change_of, purging_of, instruction_of};
ghost use Rattle.relup_block.specs.Order.{BlockItemForm, block_item_of, block_items_of, order};
ghost use Rattle.relup_block.specs.Block.{written_timeout, suspension, resumption, change, purging, is_static, is_of_kind, loading, suspending, changing, resuming, updating, in_orders, block};
ghost use Rattle.relup_block.specs.Memory.{Appends};

use crate::order::{BlockItem, ChoiceRule, order};
use appup_file::{ModType, StateChange};
use relup_instruction::{Change, Conversion, Direction, Instr, Purging, Suspension, Timeout};
use std::alloc::{AllocError, Global};

/// Writes an instruction after those that stand in `out`.
pub fn push_instr(instr: Instr, out: &mut Vec<Instr>) -> Result<(), AllocError>
    ensures { OnOk result (Appends out.old.items out.new.items (instruction_of instr ∷ [])) }
{
    out.push(instr)?;
    Ok(())
}

// A timeout, where it is not the default.
fn written_timeout(timeout: Timeout) -> Option<Timeout>
    ensures { result ≡ written_timeout timeout }
{
    match timeout {
        Timeout::Default => None,
        timeout => Some(timeout),
    }
}

fn change(item: BlockItem<'_>) -> Result<Option<Change>, AllocError>
    ensures { IfOk result (λ o. option_map change_of o ≡ change (block_item_of item.entry)) }
{
    match item {
        BlockItem::Updated(update) => match &update.change {
            StateChange::Soft => Ok(None),
            StateChange::Advanced(extra) => Ok(Some(Change {
                name: update.name.clone()?,
                extra: extra.clone()?,
            })),
        },
        BlockItem::Loaded(_) => Ok(None),
    }
}

fn purging(item: BlockItem<'_>) -> Result<Purging, AllocError>
    ensures { IfOk result (λ p. purging_of p ≡ purging (block_item_of item.entry)) }
{
    match item {
        BlockItem::Updated(update) => Ok(Purging {
            name: update.name.clone()?,
            pre: update.pre,
            post: update.post,
        }),
        BlockItem::Loaded(load) => Ok(Purging {
            name: load.name.clone()?,
            pre: load.pre,
            post: load.post,
        }),
    }
}

// Whether it is the update of a static module.
fn is_static(item: BlockItem<'_>) -> bool
    ensures { result ≡ is_static (block_item_of item.entry) }
{
    match item {
        BlockItem::Updated(update) => match update.mod_type {
            ModType::Static => true,
            ModType::Dynamic => false,
        },
        BlockItem::Loaded(_) => false,
    }
}

fn suspensions(alloc: Global, items: &[BlockItem<'_>]) -> Result<Vec<Suspension>, AllocError>
    ensures { IfOk result (λ v.
        map suspension_of v.items ≡ filter_map suspension (block_items_of items.now)) }
{
    let mut suspensions = Vec::with_capacity(alloc, items.len())?;
    for item in items {
        if let BlockItem::Updated(update) = *item {
            suspensions.push(Suspension {
                name: update.name.clone()?,
                timeout: written_timeout(update.timeout),
            })?;
        }
    }
    Ok(suspensions)
}

fn resumptions(alloc: Global, items: &[BlockItem<'_>]) -> Result<Vec<String>, AllocError>
    ensures { IfOk result (λ v.
        map string_bytes v.items ≡ filter_map resumption (block_items_of items.now)) }
{
    let mut names = Vec::with_capacity(alloc, items.len())?;
    for item in items {
        if let BlockItem::Updated(update) = *item {
            names.push(update.name.clone()?)?;
        }
    }
    Ok(names)
}

// In the reverse order of suspending.
fn reversed_resumptions(alloc: Global, items: &[BlockItem<'_>]) -> Result<Vec<String>, AllocError>
    ensures { IfOk result (λ v. map string_bytes v.items
        ≡ reverse (filter_map resumption (block_items_of items.now))) }
{
    let mut names = resumptions(alloc, items)?;
    names.reverse();
    Ok(names)
}

fn changes(alloc: Global, items: &[BlockItem<'_>]) -> Result<Vec<Change>, AllocError>
    ensures { IfOk result (λ v.
        map change_of v.items ≡ filter_map change (block_items_of items.now)) }
{
    let mut changes = Vec::with_capacity(alloc, items.len())?;
    for item in items {
        if let Some(change) = change(*item)? {
            changes.push(change)?;
        }
    }
    Ok(changes)
}

fn push_suspend(
    alloc: Global,
    items: &[BlockItem<'_>],
    out: &mut Vec<Instr>,
) -> Result<(), AllocError>
    ensures { OnOk result
        (Appends out.old.items out.new.items (suspending (block_items_of items.now))) }
{
    let suspensions = suspensions(alloc, items)?;
    if suspensions.is_empty() {
        return Ok(());
    }
    push_instr(Instr::Suspend(suspensions), out)
}

fn push_resume(
    alloc: Global,
    items: &[BlockItem<'_>],
    out: &mut Vec<Instr>,
) -> Result<(), AllocError>
    ensures { OnOk result
        (Appends out.old.items out.new.items (resuming (block_items_of items.now))) }
{
    let names = reversed_resumptions(alloc, items)?;
    if names.is_empty() {
        return Ok(());
    }
    push_instr(Instr::Resume(names), out)
}

fn push_changes(
    alloc: Global,
    direction: Direction,
    items: &[BlockItem<'_>],
    out: &mut Vec<Instr>,
) -> Result<(), AllocError>
    ensures { OnOk result
        (Appends out.old.items out.new.items (changing direction (block_items_of items.now))) }
{
    let changes = changes(alloc, items)?;
    if changes.is_empty() {
        return Ok(());
    }
    push_instr(
        Instr::CodeChange(Conversion {
            mode: Some(direction),
            changes,
        }),
        out,
    )
}

fn push_load(item: BlockItem<'_>, out: &mut Vec<Instr>) -> Result<(), AllocError>
    ensures { OnOk result
        (Appends out.old.items out.new.items (loading (block_item_of item.entry ∷ []))) }
{
    push_instr(Instr::Load(purging(item)?), out)
}

fn push_loads(items: &[BlockItem<'_>], out: &mut Vec<Instr>) -> Result<(), AllocError>
    ensures { OnOk result
        (Appends out.old.items out.new.items (loading (block_items_of items.now))) }
{
    for item in items {
        push_load(*item, out)?;
    }
    Ok(())
}

// Appends the loads of static modules, or those of the others.
fn push_loads_that(
    wanted: bool,
    items: &[BlockItem<'_>],
    out: &mut Vec<Instr>,
) -> Result<(), AllocError>
    ensures { OnOk result (Appends out.old.items out.new.items
        (loading (filter (is_of_kind wanted) (block_items_of items.now)))) }
{
    for item in items {
        if is_static(*item) == wanted {
            push_load(*item, out)?;
        }
    }
    Ok(())
}

fn push_updates(
    alloc: Global,
    direction: Direction,
    items: &[BlockItem<'_>],
    out: &mut Vec<Instr>,
) -> Result<(), AllocError>
    ensures { OnOk result
        (Appends out.old.items out.new.items (updating direction (block_items_of items.now))) }
{
    match direction {
        Direction::Up => {
            push_loads(items, out)?;
            push_changes(alloc, direction, items, out)
        }
        Direction::Down => {
            push_loads_that(true, items, out)?;
            push_changes(alloc, direction, items, out)?;
            push_loads_that(false, items, out)
        }
    }
}

fn push_in_orders(
    alloc: Global,
    direction: Direction,
    suspended: &[BlockItem<'_>],
    items: &[BlockItem<'_>],
    out: &mut Vec<Instr>,
) -> Result<(), AllocError>
    ensures { OnOk result (Appends out.old.items out.new.items
        (in_orders direction (block_items_of suspended.now) (block_items_of items.now))) }
{
    push_suspend(alloc, suspended, out)?;
    push_updates(alloc, direction, items, out)?;
    push_resume(alloc, suspended, out)
}

// By which rules a block suspends, and loads and changes.
fn rules(direction: Direction) -> (ChoiceRule, ChoiceRule)
    ensures { (xs : List BlockItemForm) → block direction xs
        ≡ in_orders direction (order result.0 xs) (order result.1 xs) }
{
    match direction {
        Direction::Up => (ChoiceRule::DependentsFirst, ChoiceRule::DependenciesFirst),
        Direction::Down => (ChoiceRule::DependenciesFirst, ChoiceRule::DependentsFirst),
    }
}

/// Writes the instructions of a block after those that stand in `out`. Up, what depends on others is suspended first and
/// loaded last, and down the other way round.
pub fn push_block(
    alloc: Global,
    direction: Direction,
    items: &[BlockItem<'_>],
    out: &mut Vec<Instr>,
) -> Result<(), AllocError>
    ensures { OnOk result
        (Appends out.old.items out.new.items (block direction (block_items_of items.now))) }
{
    let (suspending, loading) = rules(direction);
    let suspended = order(alloc, suspending, items)?;
    let loaded = order(alloc, loading, items)?;
    push_in_orders(alloc, direction, &suspended, &loaded, out)
}
