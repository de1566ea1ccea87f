//! Members that begin.
ghost use Rattle.std.specs.Prelude.{◌≡◌, ◌≤◌, [], ◌∷◌, IfOk, length, map, vec_capacity};
ghost use Rattle.proc_table.specs.Free.{free_count};
ghost use Rattle.started_members.specs.Preparations.{AllBegan, IsBegun, new_process_of, preparation_of, to_begin};
ghost use Rattle.app_members.specs.InMemory.{new_member_of, new_members_of};
ghost use Rattle.started_members.specs.Begins.{state_before};

use crate::{Member, MemberState, StartedProcess};
use app_members::NewMember;
use mod_table::Table;
use proc_table::{Beginning, Name};
use std::alloc::{AllocError, Global};
use std::sync::Wait;
use table_access::{Seating, TableAccess};

/// A process that is to begin: all that it begins with, and what is kept of it.
#[derive(Drop)]
pub struct NewProcess {
    /// What it begins with.
    pub begins: Beginning,
    /// The id of its child specification.
    pub id: Name,
    /// The module that it runs.
    pub module: Name,
}

/// A member for which all memory is there.
#[derive(Drop)]
pub struct Preparation {
    /// The member as it stands before its process begins.
    pub member: Member,
    /// That process, where it is one.
    pub process: Option<NewProcess>,
}

/// A process begins for each member that is one, in the lowest slot in which one can, one after another. There are as many such
/// slots, and so much room. It waits for the slots.
pub fn begin_all<R: Wait, S: Seating>(
    rt: &R,
    access: &mut TableAccess<'_, S>,
    prepared: Vec<Preparation>,
    members: &mut Vec<Member>,
)
    requires slots { length (to_begin prepared.items) ≤ free_count access.old }
    requires none { members.old.items ≡ [] }
    requires room { length prepared.items ≤ vec_capacity members.old }
    ensures began { AllBegan prepared.items access.old members.new.items access.new }
{
    for preparation in prepared {
        members.push_reserved(begin(rt, access, preparation));
    }
}

// The process of a member begins, where it is one.
fn begin<R: Wait, S: Seating>(
    rt: &R,
    access: &mut TableAccess<'_, S>,
    preparation: Preparation,
) -> Member
    requires slots { length (to_begin (preparation ∷ [])) ≤ free_count access.old }
    ensures began { IsBegun preparation access.old result access.new }
{
    let Preparation { member, process } = preparation;
    let Some(NewProcess { begins, id, module }) = process else {
        return member;
    };
    let Ok(pid) = access.begin_lowest(rt, begins) else {
        unreachable!();
    };
    let mut begun = member;
    begun.state = MemberState::Process(StartedProcess { id, module, pid });
    begun
}

/// A name of this text.
pub fn name_of(alloc: Global, text: &str) -> Result<Name, AllocError>
    ensures { IfOk result (λ name. name ≡ text.now) }
{
    Ok(Name::new(String::from_str(alloc, text)?))
}

// The process that a member of this application is, where it is one.
fn new_process(
    alloc: Global,
    app: &str,
    member: NewMember<'_>,
) -> Result<Option<NewProcess>, AllocError>
    ensures { IfOk result (λ p. p ≡ new_process_of app.now (new_member_of member.entry)) }
{
    let Table::Worker(table) = member.table else {
        return Ok(None);
    };
    Ok(Some(NewProcess {
        begins: Beginning {
            app: name_of(alloc, app)?,
            id: name_of(alloc, member.id)?,
            restart: member.restart,
            table: table.copy(alloc)?,
        },
        id: name_of(alloc, member.id)?,
        module: name_of(alloc, member.module)?,
    }))
}

// What stands for a member before its process begins.
fn state_before(alloc: Global, member: NewMember<'_>) -> Result<MemberState, AllocError>
    ensures { IfOk result (λ s. s ≡ state_before (new_member_of member.entry)) }
{
    match member.table {
        Table::Worker(_) => Ok(MemberState::Ended),
        Table::Super(_) => Ok(MemberState::Supervisor(name_of(alloc, member.module)?)),
    }
}

fn prepare(alloc: Global, app: &str, member: NewMember<'_>) -> Result<Preparation, AllocError>
    ensures { IfOk result (λ p. p ≡ preparation_of app.now (new_member_of member.entry)) }
{
    Ok(Preparation {
        member: Member {
            depth: member.depth,
            id: name_of(alloc, member.id)?,
            module: name_of(alloc, member.module)?,
            restart: member.restart,
            kind: member.kind,
            state: state_before(alloc, member)?,
        },
        process: new_process(alloc, app, member)?,
    })
}

/// All memory that members of this application need to begin.
pub fn prepare_all(
    alloc: Global,
    app: &str,
    members: &[NewMember<'_>],
) -> Result<Vec<Preparation>, AllocError>
    ensures { IfOk result (λ ps.
        ps.items ≡ map (preparation_of app.now) (new_members_of members.now)) }
{
    let mut prepared = Vec::with_capacity(alloc, members.len())?;
    for member in members {
        prepared.push(prepare(alloc, app, *member)?)?;
    }
    Ok(prepared)
}

/// How many processes are to begin.
pub fn process_count(prepared: &[Preparation]) -> usize
    ensures { result ≡ length (to_begin prepared.now) }
{
    let mut count = 0;
    for preparation in prepared {
        if preparation.process.is_some() {
            count += 1;
        }
    }
    count
}
