//! The walk through the processes that a release starts.
ghost use Rattle.std.specs.Prelude.{◌≡◌, ℕ, List, IfOk, Some, map};
ghost use Rattle.std.specs.Option.{option_map};
ghost use Rattle.mod_table.specs.declared.table.Table as table;
ghost use Rattle.mod_table.specs.InMemory.{child_of};
ghost use Rattle.rel_check.specs.InMemory.{part_of, module_of};
ghost use Rattle.rel_check.specs.Modules.{table_of};
ghost use Rattle.rel_check.specs.Walk.{is_started, top_of};
ghost use Rattle.rel_check.specs.Summary.{summary_of, known_in, known_at, joined, one_worker, nothing_started, no_table_of, is_same_kind, summary_of_kind, child_summary, children_joined, supervisor_alone, supervisor_summary, too_deep, next_summary, top_summary, parts_joined, release_summary};

use crate::modules::{Module, Part};
use mod_table::{Child, ChildKind, Table};
use rel_files::StartType;
use std::alloc::{AllocError, Global};
use std::collections::BTreeMap;

// How many children a supervisor has at most.
const MOST_CHILDREN: usize = 64;

// How many supervisors there are in each other at most.
const MOST_SUPERVISORS: usize = 8;

/// What is known of a table and of the processes from it on.
#[derive(Clone, Copy)]
pub(crate) struct Walk<'a> {
    /// The kind of the table.
    pub(crate) kind: ChildKind,
    /// The first module that has no table of the kind that is asked of it.
    pub(crate) missing: Option<&'a str>,
    /// How many processes there are; `usize::MAX` for any number that is greater.
    pub(crate) processes: usize,
    /// Whether no supervisor has too many children or stands too deep.
    pub(crate) within: bool,
}

// What is known of each module with a table, by its name.
type Level<'a> = BTreeMap<&'a str, Walk<'a>>;

impl<'a> Walk<'a> {
    // One process.
    fn one_worker() -> Walk<'a>
        ensures { summary_of result ≡ one_worker }
    {
        Walk {
            kind: ChildKind::Worker,
            missing: None,
            processes: 1,
            within: true,
        }
    }

    // Nothing.
    fn nothing_started() -> Walk<'a>
        ensures { summary_of result ≡ nothing_started }
    {
        Walk {
            kind: ChildKind::Supervisor,
            missing: None,
            processes: 0,
            within: true,
        }
    }

    // Nothing, and no table of this module.
    fn no_table_of(name: &'a str) -> Walk<'a>
        ensures { summary_of result ≡ no_table_of name.now }
    {
        Walk {
            kind: ChildKind::Supervisor,
            missing: Some(name),
            processes: 0,
            within: true,
        }
    }

    // A supervisor before its children.
    fn supervisor_alone(children: &[Child]) -> Walk<'a>
        ensures { summary_of result ≡ supervisor_alone (map child_of children.now) }
    {
        Walk {
            kind: ChildKind::Supervisor,
            missing: None,
            processes: 0,
            within: children.len() <= MOST_CHILDREN,
        }
    }

    // A supervisor deeper than the walk goes.
    fn too_deep() -> Walk<'a>
        ensures { summary_of result ≡ too_deep }
    {
        Walk {
            kind: ChildKind::Supervisor,
            missing: None,
            processes: 0,
            within: false,
        }
    }

    // With another below it.
    fn joined(self, below: Walk<'a>) -> Walk<'a>
        ensures { summary_of result ≡ joined (summary_of self.entry) (summary_of below.entry) }
    {
        Walk {
            kind: self.kind,
            missing: self.missing.or(below.missing),
            processes: self.processes.saturating_add(below.processes),
            within: self.within && below.within,
        }
    }
}

// What is known of a module, if its table is of this kind.
fn walk_of_kind<'a>(kind: ChildKind, name: &'a str, walk: Walk<'a>) -> Walk<'a>
    ensures { summary_of result ≡ summary_of_kind kind name.now (summary_of walk.entry) }
{
    if is_same_kind(walk.kind, kind) {
        walk
    } else {
        Walk::no_table_of(name)
    }
}

fn is_same_kind(left: ChildKind, right: ChildKind) -> bool
    ensures { result ≡ is_same_kind left right }
{
    match (left, right) {
        (ChildKind::Worker, ChildKind::Worker) => true,
        (ChildKind::Supervisor, ChildKind::Supervisor) => true,
        _ => false,
    }
}

/// What a release starts.
pub(crate) fn release_walk<'a>(
    alloc: Global,
    parts: &[Part<'a>],
    modules: &[Module<'a>],
) -> Result<Walk<'a>, AllocError>
    ensures { IfOk result (λ walk. summary_of walk ≡ release_summary
        (known_at 8 (table_of (map module_of modules.now))) (map part_of parts.now)) }
{
    let level = top_level(alloc, modules)?;
    Ok(parts_joined(Walk::nothing_started(), parts, &level))
}

// With what the tops of these applications start.
fn parts_joined<'a>(start: Walk<'a>, parts: &[Part<'a>], level: &Level<'a>) -> Walk<'a>
    ensures { summary_of result
        ≡ parts_joined (known_in level.now) (summary_of start.entry) (map part_of parts.now) }
{
    let mut walk = start;
    for part in parts {
        walk = walk.joined(top_walk(top_of(*part), level));
    }
    walk
}

// The top module of an application that is started, if its file names one.
fn top_of<'a>(part: Part<'a>) -> Option<&'a str>
    ensures { option_map (λ n. n.now) result ≡ top_of (part_of part.entry) }
{
    if is_started(part.app.start) {
        match &part.library.app.top {
            Some(top) => Some(top.as_str()),
            None => None,
        }
    } else {
        None
    }
}

fn is_started(start: StartType) -> bool
    ensures { result ≡ is_started start }
{
    match start {
        StartType::Permanent | StartType::Transient | StartType::Temporary => true,
        StartType::Load | StartType::Unloaded => false,
    }
}

// What a top module starts, where there is one.
fn top_walk<'a>(top: Option<&'a str>, level: &Level<'a>) -> Walk<'a>
    ensures { summary_of result
        ≡ top_summary (known_in level.now) (option_map (λ n. n.now) top.entry) }
{
    let Some(top) = top else {
        return Walk::nothing_started();
    };
    match level.get(&top) {
        Some(walk) => walk_of_kind(ChildKind::Supervisor, top, *walk),
        None => Walk::nothing_started(),
    }
}

// What is known once the walk went through as many supervisors in each other as there may be.
fn top_level<'a>(alloc: Global, modules: &[Module<'a>]) -> Result<Level<'a>, AllocError>
    ensures { IfOk result (λ level. (q : List ℕ) →
        known_in level q ≡ known_at 8 (table_of (map module_of modules.now)) q) }
{
    let mut level = next_level(alloc, modules, None)?;
    for _depth in 0..MOST_SUPERVISORS {
        level = next_level(alloc, modules, Some(&level))?;
    }
    Ok(level)
}

// What is known of each module, from what is known one level below.
fn next_level<'a>(
    alloc: Global,
    modules: &[Module<'a>],
    below: Option<&Level<'a>>,
) -> Result<Level<'a>, AllocError>
    ensures { IfOk result (λ level. (q : List ℕ) → known_in level q
        ≡ option_map (next_summary (option_map (λ l. known_in l.now) below.entry))
        (table_of (map module_of modules.now) q)) }
{
    let mut level = BTreeMap::new(alloc);
    for module in modules {
        if let Some(table) = module.table {
            level.insert(module.name, table_walk(table, below))?;
        }
    }
    Ok(level)
}

// From one table on, from what is known one level below it.
fn table_walk<'a>(table: &'a Table, below: Option<&Level<'a>>) -> Walk<'a>
    ensures { summary_of result
        ≡ next_summary (option_map (λ l. known_in l.now) below.entry) table.now }
{
    match table {
        Table::Worker(_) => Walk::one_worker(),
        Table::Super(supervisor) => match below {
            Some(below) => supervisor_walk(supervisor.children(), below),
            None => Walk::too_deep(),
        },
    }
}

fn supervisor_walk<'a>(children: &'a [Child], below: &Level<'a>) -> Walk<'a>
    ensures { summary_of result
        ≡ supervisor_summary (known_in below.now) (map child_of children.now) }
{
    children_joined(Walk::supervisor_alone(children), children, below)
}

// With what these children start.
fn children_joined<'a>(start: Walk<'a>, children: &'a [Child], below: &Level<'a>) -> Walk<'a>
    ensures { summary_of result ≡ children_joined
        (known_in below.now) (summary_of start.entry) (map child_of children.now) }
{
    let mut walk = start;
    for child in children {
        walk = walk.joined(child_walk(child, below));
    }
    walk
}

fn child_walk<'a>(child: &'a Child, below: &Level<'a>) -> Walk<'a>
    ensures { summary_of result ≡ child_summary (known_in below.now) (child_of child.now) }
{
    let name = child.module.as_str();
    match below.get(&name) {
        Some(walk) => walk_of_kind(child.kind, name, *walk),
        None => Walk::no_table_of(name),
    }
}
