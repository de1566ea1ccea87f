//! The orders in which the modules of a block are suspended and loaded.
ghost use Rattle.std.specs.Prelude.{◌≡◌, ◌<◌, ◌≤◌, ◌+◌, ◌^◌, length, filter, remove, slice_index_or, vec_len, IfOk, IfSome, map, string_bytes};
ghost use Rattle.relup_block.specs.Order.{block_item_of, block_items_of, item_name, item_deps, is_among, depends_on, must_wait_for, order};
ghost use Rattle.relup_block.specs.Counts.{waits_among, waiting_of, all_waiting, passed_items, has_deps, first_idle_behind, after_item, HasNaming, IsNext, step_of, Meets, remaining, IsCounted, Steps, size_of_left, Shrinks};

use appup_file::{ModuleLoad, Update};
use std::alloc::{AllocError, Global};

/// What stands in a block.
#[derive(Clone, Copy)]
pub enum BlockItem<'a> {
    Updated(&'a Update),
    Loaded(&'a ModuleLoad),
}

// Which of the items that remain comes next.
#[derive(Clone, Copy)]
pub(crate) enum ChoiceRule {
    // The first on which no other one depends.
    DependentsFirst,
    // The first that depends on no other one.
    DependenciesFirst,
}

// An item that was passed over, with how many of the other remaining ones have to come before it.
#[derive(Clone, Copy)]
struct Waiting<'a> {
    item: BlockItem<'a>,
    waits: usize,
}

// The items that weren't reached yet, and those of them that name dependencies.
#[derive(Clone, Copy)]
struct Ahead<'i, 'a> {
    items: &'i [BlockItem<'a>],
    naming: &'i [BlockItem<'a>],
}

// The items that remain: those that were passed over since they waited, and those ahead.
#[derive(Drop)]
struct Left<'i, 'a> {
    passed: Vec<Waiting<'a>>,
    ahead: Ahead<'i, 'a>,
}

// What a step came to.
#[derive(Clone, Copy)]
enum Step<'a> {
    // The next choice was taken.
    Chosen(BlockItem<'a>),
    // One more item was passed over.
    Passed,
    // None remains.
    End,
}

impl<'a> BlockItem<'a> {
    fn name(self) -> &'a str
        ensures { result.now ≡ item_name (block_item_of self.entry) }
    {
        match self {
            BlockItem::Updated(update) => update.name.as_str(),
            BlockItem::Loaded(load) => load.name.as_str(),
        }
    }

    fn deps(self) -> &'a [String]
        ensures { map string_bytes result.now ≡ item_deps (block_item_of self.entry) }
    {
        match self {
            BlockItem::Updated(update) => update.dep_mods.as_slice(),
            BlockItem::Loaded(load) => load.dep_mods.as_slice(),
        }
    }
}

// Whether a name is among these.
fn is_among(name: &str, names: &[String]) -> bool
    ensures { result ≡ is_among name.now (map string_bytes names.now) }
{
    for other in names {
        if other.as_str() == name {
            return true;
        }
    }
    false
}

fn depends_on(item: BlockItem<'_>, other: BlockItem<'_>) -> bool
    ensures { result ≡ depends_on (block_item_of item.entry) (block_item_of other.entry) }
{
    is_among(other.name(), item.deps())
}

// Whether another item has to come before this one.
fn must_wait_for(rule: ChoiceRule, item: BlockItem<'_>, other: BlockItem<'_>) -> bool
    ensures { result ≡ must_wait_for rule (block_item_of item.entry) (block_item_of other.entry) }
{
    match rule {
        ChoiceRule::DependentsFirst => depends_on(other, item),
        ChoiceRule::DependenciesFirst => depends_on(item, other),
    }
}

// How many of these have to come before it.
fn waits_among(rule: ChoiceRule, item: BlockItem<'_>, others: &[BlockItem<'_>]) -> usize
    ensures few { result ≤ length others.now }
    ensures count { result
        ≡ waits_among rule (block_item_of item.entry) (block_items_of others.now) }
{
    let mut count = 0;
    for other in others {
        if must_wait_for(rule, item, *other) {
            count += 1;
        }
    }
    count
}

// How many of those that were passed over.
fn waits_for_passed(rule: ChoiceRule, item: BlockItem<'_>, passed: &[Waiting<'_>]) -> usize
    ensures few { result ≤ length passed.now }
    ensures count { result ≡ waits_among rule (block_item_of item.entry) (passed_items passed.now) }
{
    let mut count = 0;
    for other in passed {
        if must_wait_for(rule, item, other.item) {
            count += 1;
        }
    }
    count
}

// Whether it names dependencies.
fn has_deps(item: BlockItem<'_>) -> bool
    ensures { result ≡ has_deps (block_item_of item.entry) }
{
    !item.deps().is_empty()
}

// The items that name dependencies.
fn naming<'a>(alloc: Global, items: &[BlockItem<'a>]) -> Result<Vec<BlockItem<'a>>, AllocError>
    ensures { IfOk result (λ v.
        block_items_of v.items ≡ filter has_deps (block_items_of items.now)) }
{
    let mut kept = Vec::new(alloc);
    for item in items {
        if has_deps(*item) {
            kept.push(*item)?;
        }
    }
    Ok(kept)
}

impl<'i, 'a> Ahead<'i, 'a> {
    // How many of these have to come before an item. Those that name no dependencies aren't asked.
    fn waits(self, rule: ChoiceRule, item: BlockItem<'_>) -> usize
        requires { HasNaming self }
        ensures few { result ≤ length self.entry.items.now }
        ensures count { result ≡ waits_among rule (block_item_of item.entry)
            (block_items_of self.entry.items.now) }
    {
        match rule {
            ChoiceRule::DependentsFirst => waits_among(rule, item, self.naming),
            ChoiceRule::DependenciesFirst if has_deps(item) => waits_among(rule, item, self.items),
            ChoiceRule::DependenciesFirst => 0,
        }
    }

    // The next of them, and those after it.
    fn next(self) -> Option<(BlockItem<'a>, Ahead<'i, 'a>)>
        requires { HasNaming self }
        ensures { IsNext self.entry result }
    {
        let (item, items) = self.items.split_first()?;
        let naming = if has_deps(*item) {
            &self.naming[1..]
        } else {
            self.naming
        };
        Some((*item, Ahead { items, naming }))
    }
}

// The place of the first that waits for none.
fn first_idle(left: &[Waiting<'_>]) -> Option<usize>
    ensures within { IfSome result (λ i. i < length left.now) }
    ensures first { result ≡ first_idle_behind 0 (all_waiting left.now) }
{
    for (i, waiting) in left.iter().enumerate() {
        if waiting.waits == 0 {
            return Some(i);
        }
    }
    None
}

// What an item waits for, without one that has come.
fn wait_without<'a>(rule: ChoiceRule, item: BlockItem<'_>, waiting: Waiting<'a>) -> Waiting<'a>
    ensures { waiting_of result
        ≡ after_item rule (block_item_of item.entry) (waiting_of waiting.entry) }
{
    if must_wait_for(rule, waiting.item, item) {
        Waiting {
            item: waiting.item,
            waits: waiting.waits.saturating_sub(1),
        }
    } else {
        waiting
    }
}

// Nor do all that were passed over.
fn release(rule: ChoiceRule, item: BlockItem<'_>, left: &mut [Waiting<'_>])
    ensures { all_waiting left.new
        ≡ map (after_item rule (block_item_of item.entry)) (all_waiting left.old) }
{
    for waiting in left.iter_mut() {
        *waiting = wait_without(rule, item, *waiting);
    }
}

// Takes out one that was passed over.
fn take_out<'a>(rule: ChoiceRule, place: usize, passed: &mut Vec<Waiting<'a>>) -> BlockItem<'a>
    requires { place < length passed.old.items }
    ensures taken { (w : Waiting) → result ≡ (slice_index_or passed.old.items place w).item }
    ensures left { all_waiting passed.new.items
        ≡ map (after_item rule (block_item_of result))
        (all_waiting (remove passed.old.items place)) }
    ensures fewer { vec_len passed.new + 1 ≡ vec_len passed.old }
{
    let item = passed[place].item;
    passed.remove(place);
    release(rule, item, passed);
    item
}

impl<'i, 'a> Left<'i, 'a> {
    // Takes the next one ahead, if it waits for none, or passes it over.
    fn meet(
        &mut self,
        rule: ChoiceRule,
        item: BlockItem<'a>,
        behind: Ahead<'i, 'a>,
    ) -> Result<Step<'a>, AllocError>
        requires naming { HasNaming behind }
        requires room { vec_len self.old.passed + length behind.items.now < 2 ^ 64 }
        ensures met { IfOk result (λ s. Meets rule (all_waiting self.old.passed.items)
            (block_item_of item.entry) (block_items_of behind.entry.items.now) (step_of s)
            (all_waiting self.new.passed.items)) }
        ensures ahead { IfOk result (λ s. self.new.ahead ≡ behind.entry) }
        ensures more { IfOk result (λ s. vec_len self.new.passed ≤ vec_len self.old.passed + 1) }
    {
        let waits = waits_for_passed(rule, item, &self.passed) + behind.waits(rule, item);
        self.ahead = behind;
        if waits == 0 {
            release(rule, item, &mut self.passed);
            return Ok(Step::Chosen(item));
        }
        self.passed.push(Waiting { item, waits })?;
        Ok(Step::Passed)
    }

    // One more step: the first of those that were passed over that waits no longer is the next choice; else it is the next
    // one ahead, if it waits for none; and where all remaining ones wait, the first.
    fn step(&mut self, rule: ChoiceRule) -> Result<Step<'a>, AllocError>
        requires naming { HasNaming self.old.ahead }
        requires room { size_of_left self.old < 2 ^ 64 }
        ensures steps { IfOk result (λ s. IsCounted rule self.old
            → Steps rule (remaining self.old) (step_of s) (remaining self.new)) }
        ensures counted { IfOk result (λ s. IsCounted rule self.old → IsCounted rule self.new) }
        ensures shrinks { IfOk result (λ s. Shrinks s self.old self.new) }
    {
        if let Some(place) = first_idle(&self.passed) {
            return Ok(Step::Chosen(take_out(rule, place, &mut self.passed)));
        }
        match self.ahead.next() {
            Some((item, behind)) => self.meet(rule, item, behind),
            None if self.passed.is_empty() => Ok(Step::End),
            None => Ok(Step::Chosen(take_out(rule, 0, &mut self.passed))),
        }
    }
}

// All the items, by one choice after another. An item is passed over as long as it waits for others, and it is known how many
// these are: the dependencies are gone through twice for each item, and not for each choice again.
pub(crate) fn order<'a>(
    alloc: Global,
    rule: ChoiceRule,
    items: &[BlockItem<'a>],
) -> Result<Vec<BlockItem<'a>>, AllocError>
    ensures { IfOk result (λ v.
        block_items_of v.items ≡ order rule (block_items_of items.now)) }
{
    let naming = naming(alloc, items)?;
    let mut ordered = Vec::with_capacity(alloc, items.len())?;
    let mut left = Left {
        passed: Vec::new(alloc),
        ahead: Ahead {
            items,
            naming: &naming,
        },
    };
    loop {
        match left.step(rule)? {
            Step::Chosen(item) => ordered.push(item)?,
            Step::Passed => {}
            Step::End => return Ok(ordered),
        }
    }
}
