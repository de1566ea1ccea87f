//! The way from an application's top through the children of its supervisors.
ghost use Rattle.std.specs.Prelude.{◌≡◌, ℕ, ◌+◌, ◌≤◌, List, [], ◌∷◌, ◌++◌, IfOk, OnOk, Some, cond, length, map, vec_capacity};
ghost use Rattle.std.specs.Str.{bytes_eq};
ghost use Rattle.std.specs.Option.{option_and_then, option_map};
ghost use Rattle.rel_files.specs.AppInMemory.{specification_of};
ghost use Rattle.mod_table.specs.InMemory.{child_of};
ghost use Rattle.mod_table.specs.Table.{ChildSpec};
ghost use Rattle.mod_table.specs.Tables.{child_table, of_kind};
ghost use Rattle.app_members.specs.InMemory.{AreCounted, Counts, counted, known_through, noted_in, new_child_of, new_member_of, new_members_of, AreChildMembers, AreMembers, AreUnlessFault, TopIs};
ghost use Rattle.loaded_modules.specs.Loaded.{modules_in, tables_of};
ghost use Rattle.app_members.specs.Walk.{child_as_member, child_fault, children_fault, children_members, fault_from, fault_with, members_below, members_from, members_with, starts_among};

use crate::MembersError;
use loaded_modules::Loaded;
use mod_table::{Child, ChildKind, Restart, Table};
use rel_files::App;
use std::alloc::{AllocError, Global};
use std::collections::BTreeMap;

// How many supervisors there are in each other at most.
const MOST_SUPERVISORS: usize = 8;

/// A member that starts, a process or a supervisor.
#[derive(Clone, Copy)]
pub struct NewMember<'a> {
    /// In how many supervisors it stands.
    pub depth: usize,
    /// The id of its child specification; of the top, its module.
    pub id: &'a str,
    /// The module that its child specification names.
    pub module: &'a str,
    /// When it is started again.
    pub restart: Restart,
    /// What it is.
    pub kind: ChildKind,
    /// The table of its module.
    pub table: &'a Table,
}

/// A child of a supervisor that starts alone: in how many supervisors it stands, and its child specification.
#[derive(Clone, Copy)]
pub struct NewChild<'a> {
    /// In how many supervisors it stands.
    pub depth: usize,
    /// The id of its child specification.
    pub id: &'a str,
    /// The module that its child specification names.
    pub module: &'a str,
    /// When it is started again.
    pub restart: Restart,
    /// What it is.
    pub kind: ChildKind,
}

// What is known below a supervisor in which nothing is wrong.
#[derive(Clone, Copy)]
struct Below {
    // Through how many supervisors in each other nothing is wrong.
    through: usize,
    // How many members stand there; `usize::MAX` for any number that is greater.
    members: usize,
}

// Below which supervisors nothing is wrong, by their modules. So one that many others share isn't walked through again for each of
// them, and its members are counted once.
type Noted<'a> = BTreeMap<&'a str, Below>;

/// The members with which an application starts: its top, and those below it. An application without a top, or whose top has no
/// table, has none. Where a module on the way has no table of the kind that is asked of it, NoTable names the first one;
/// Unsupported comes where supervisors stand too deep in each other. The members are counted before memory is asked for all of
/// them at once: supervisors that share others may have more than any memory holds.
pub fn members_of_app<'a>(
    alloc: Global,
    loaded: &'a Loaded,
    app: &'a App,
) -> Result<Vec<NewMember<'a>>, MembersError<'a>>
    ensures { AreMembers
        (tables_of (modules_in loaded.now)) (specification_of app.now).top result }
{
    match top_of(loaded, app)? {
        Some(top) => members_with(alloc, loaded, top, MOST_SUPERVISORS),
        None => Ok(Vec::new(alloc)),
    }
}

/// The members with which a child of a supervisor starts alone: the child, and where it is a supervisor those below it. Else it is
/// as with an application.
pub fn members_of_child<'a>(
    alloc: Global,
    loaded: &'a Loaded,
    child: NewChild<'a>,
) -> Result<Vec<NewMember<'a>>, MembersError<'a>>
    ensures { AreChildMembers (tables_of (modules_in loaded.now))
        child.entry.depth (new_child_of child.entry) result }
{
    let Some(left) = MOST_SUPERVISORS.checked_sub(child.depth) else {
        return Err(MembersError::Unsupported);
    };
    let Some(member) = member_of_child(loaded, child) else {
        return Err(MembersError::NoTable(child.module));
    };
    members_with(alloc, loaded, member, left)
}

// A member and those below it, through so many supervisors in each other, if nothing is wrong there.
fn members_with<'a>(
    alloc: Global,
    loaded: &'a Loaded,
    member: NewMember<'a>,
    left: usize,
) -> Result<Vec<NewMember<'a>>, MembersError<'a>>
    requires { member.depth + left ≤ 8 }
    ensures { AreUnlessFault
        (fault_with left (tables_of (modules_in loaded.now)) (new_member_of member.entry))
        (members_with left (tables_of (modules_in loaded.now)) (new_member_of member.entry))
        result }
{
    let below = count_below(alloc, loaded, member.table, left)?;
    let mut members = room_for(alloc, below.saturating_add(1))?;
    add_member(loaded, member, left, &mut members);
    Ok(members)
}

// Room for so many members. There is none for more than are counted.
fn room_for<'a>(alloc: Global, count: usize) -> Result<Vec<NewMember<'a>>, AllocError>
    ensures none { IfOk result (λ members. members.items ≡ []) }
    ensures room { IfOk result (λ members. (n : ℕ) → count ≡ counted n
        → n ≤ vec_capacity members) }
{
    if count == usize::MAX {
        return Err(AllocError);
    }
    Vec::with_capacity(alloc, count)
}

// The child as a member, if its module has a table of its kind.
fn member_of_child<'a>(loaded: &'a Loaded, child: NewChild<'a>) -> Option<NewMember<'a>>
    ensures { option_map new_member_of result
        ≡ child_as_member child.entry.depth (new_child_of child.entry)
        (child_table (tables_of (modules_in loaded.now)) (new_child_of child.entry)) }
{
    let table = table_of_kind(loaded, child.module, child.kind)?;
    Some(NewMember {
        depth: child.depth,
        id: child.id,
        module: child.module,
        restart: child.restart,
        kind: child.kind,
        table,
    })
}

// The supervisor at the top of an application, where there is one.
fn top_of<'a>(loaded: &'a Loaded, app: &'a App) -> Result<Option<NewMember<'a>>, MembersError<'a>>
    ensures { TopIs (tables_of (modules_in loaded.now)) (specification_of app.now).top result }
{
    let Some(top) = &app.top else {
        return Ok(None);
    };
    let module = top.as_str();
    let Some(table) = loaded.table(module) else {
        return Ok(None);
    };
    match table {
        Table::Super(_) => Ok(Some(NewMember {
            depth: 0,
            id: module,
            module,
            restart: Restart::Permanent,
            kind: ChildKind::Supervisor,
            table,
        })),
        Table::Worker(_) => Err(MembersError::NoTable(module)),
    }
}

/// How many processes there are among these members.
pub fn process_count(members: &[NewMember<'_>]) -> usize
    ensures { result ≡ length (starts_among (new_members_of members.now)) }
{
    let mut count = 0;
    for member in members {
        if let Table::Worker(_) = member.table {
            count += 1;
        }
    }
    count
}

// How many members stand below one with this table, through so many supervisors in each other, if nothing is wrong there.
fn count_below<'a>(
    alloc: Global,
    loaded: &'a Loaded,
    table: &'a Table,
    left: usize,
) -> Result<usize, MembersError<'a>>
    ensures { (c : ChildSpec) → Counts
        (child_fault (children_fault left (tables_of (modules_in loaded.now))) c (Some table.now))
        (λ depth. members_below
        (children_members left (tables_of (modules_in loaded.now)) depth) table.now) result }
{
    match table {
        Table::Worker(_) => Ok(0),
        Table::Super(supervisor) => {
            let mut noted = BTreeMap::new(alloc);
            count_children(loaded, supervisor.children(), left, &mut noted)
        }
    }
}

// How many there are of the children of a supervisor and of those below them, through so many supervisors in each other.
#[cycle(counts)]
fn count_children<'a>(
    loaded: &'a Loaded,
    children: &'a [Child],
    left: usize,
    noted: &mut Noted<'a>,
) -> Result<usize, MembersError<'a>>
    requires { AreCounted (tables_of (modules_in loaded.now)) noted.old }
    ensures noted { OnOk result (AreCounted (tables_of (modules_in loaded.now)) noted.new) }
    ensures counts { Counts
        (children_fault left (tables_of (modules_in loaded.now)) (map child_of children.now))
        (λ depth. children_members left (tables_of (modules_in loaded.now)) depth
        (map child_of children.now)) result }
{
    let Some(below) = left.checked_sub(1) else {
        return Err(MembersError::Unsupported);
    };
    let mut count = 0usize;
    for child in children {
        let more = count_child(loaded, child, below, noted)?;
        count = count.saturating_add(more);
    }
    Ok(count)
}

// How many there are of a child and those below it, through so many supervisors in each other.
#[cycle(counts)]
fn count_child<'a>(
    loaded: &'a Loaded,
    child: &'a Child,
    left: usize,
    noted: &mut Noted<'a>,
) -> Result<usize, MembersError<'a>>
    requires { AreCounted (tables_of (modules_in loaded.now)) noted.old }
    ensures noted { OnOk result (AreCounted (tables_of (modules_in loaded.now)) noted.new) }
    ensures counts { Counts
        (fault_from left (tables_of (modules_in loaded.now)) (child_of child.now))
        (λ depth. members_from left (tables_of (modules_in loaded.now)) depth
        (child_of child.now)) result }
{
    let name = child.module.as_str();
    let Some(table) = child_table(loaded, child) else {
        return Err(MembersError::NoTable(name));
    };
    let Table::Super(supervisor) = table else {
        return Ok(1);
    };
    if let Some(known) = known_through(noted, name, left) {
        return Ok(known.saturating_add(1));
    }
    let members = count_children(loaded, supervisor.children(), left, noted)?;
    note(
        noted,
        name,
        Below {
            through: left,
            members,
        },
    )?;
    Ok(members.saturating_add(1))
}

// Adds a member and those below it, through so many supervisors in each other.
#[cycle(gathers)]
fn add_member<'a>(
    loaded: &'a Loaded,
    member: NewMember<'a>,
    left: usize,
    members: &mut Vec<NewMember<'a>>,
)
    requires depth { member.depth + left ≤ 8 }
    requires room { length members.old.items + length (new_member_of member
        ∷ members_below (children_members left (tables_of (modules_in loaded.now))
        (member.depth + 1)) member.table.now) ≤ vec_capacity members.old }
    ensures added { new_members_of members.new.items
        ≡ new_members_of members.old.items ++ new_member_of member.entry
        ∷ members_below (children_members left (tables_of (modules_in loaded.now))
        (member.entry.depth + 1)) member.entry.table.now }
    ensures room { vec_capacity members.new ≡ vec_capacity members.old }
{
    members.push_reserved(member);
    if let Table::Super(supervisor) = member.table {
        add_children(
            loaded,
            supervisor.children(),
            left,
            member.depth + 1,
            members,
        );
    }
}

// Adds the children of a supervisor, which stand in so many, and those below them, through so many in each other.
#[cycle(gathers)]
fn add_children<'a>(
    loaded: &'a Loaded,
    children: &'a [Child],
    left: usize,
    depth: usize,
    members: &mut Vec<NewMember<'a>>,
)
    requires depth { depth + left ≤ 9 }
    requires room { length members.old.items
        + length (children_members left (tables_of (modules_in loaded.now)) depth
        (map child_of children.now)) ≤ vec_capacity members.old }
    ensures added { new_members_of members.new.items ≡ new_members_of members.old.items
        ++ children_members left (tables_of (modules_in loaded.now)) depth
        (map child_of children.now) }
    ensures room { vec_capacity members.new ≡ vec_capacity members.old }
{
    let Some(below) = left.checked_sub(1) else {
        return;
    };
    for child in children {
        add_child(loaded, child, below, depth, members);
    }
}

#[cycle(gathers)]
fn add_child<'a>(
    loaded: &'a Loaded,
    child: &'a Child,
    left: usize,
    depth: usize,
    members: &mut Vec<NewMember<'a>>,
)
    requires depth { depth + left ≤ 8 }
    requires room { length members.old.items
        + length (members_from left (tables_of (modules_in loaded.now)) depth
        (child_of child.now)) ≤ vec_capacity members.old }
    ensures added { new_members_of members.new.items ≡ new_members_of members.old.items
        ++ members_from left (tables_of (modules_in loaded.now)) depth (child_of child.now) }
    ensures room { vec_capacity members.new ≡ vec_capacity members.old }
{
    let Some(table) = child_table(loaded, child) else {
        return;
    };
    let member = NewMember {
        depth,
        id: child.id.as_str(),
        module: child.module.as_str(),
        restart: child.restart,
        kind: child.kind,
        table,
    };
    add_member(loaded, member, left, members);
}

// The table of a child's module, if it is of the child's kind.
fn child_table<'a>(loaded: &'a Loaded, child: &Child) -> Option<&'a Table>
    ensures { option_map (λ t. t.now) result
        ≡ child_table (tables_of (modules_in loaded.now)) (child_of child.now) }
{
    table_of_kind(loaded, child.module.as_str(), child.kind)
}

// The table of a module, if it is of this kind.
fn table_of_kind<'a>(loaded: &'a Loaded, module: &str, kind: ChildKind) -> Option<&'a Table>
    ensures { option_map (λ t. t.now) result
        ≡ option_and_then (of_kind kind) (tables_of (modules_in loaded.now) «module».now) }
{
    let table = loaded.table(module)?;
    match (kind, table) {
        (ChildKind::Worker, Table::Worker(_)) => Some(table),
        (ChildKind::Supervisor, Table::Super(_)) => Some(table),
        _ => None,
    }
}

// How many members stand below this supervisor, if it is known that nothing is wrong there through so many in each other.
fn known_through<'a>(noted: &Noted<'a>, name: &'a str, left: usize) -> Option<usize>
    ensures { result ≡ option_and_then (known_through left) (noted_in noted.now name.now) }
{
    let known = noted.get(&name)?;
    if known.through <= left {
        Some(known.members)
    } else {
        None
    }
}

// From now on this is noted of the supervisor.
fn note<'a>(noted: &mut Noted<'a>, name: &'a str, below: Below) -> Result<(), AllocError>
    ensures { OnOk result ((q : List ℕ) → noted_in noted.new q
        ≡ cond (bytes_eq name.now q) (Some below) (noted_in noted.old q)) }
{
    noted.insert(name, below)?;
    Ok(())
}
