//! Supervisors whose children change.
ghost use Rattle.std.specs.Prelude.{◌≡◌, ◌<◌, ◌++◌, IfOk, IfSome, OnOk, map, reverse, vec_len};
ghost use Rattle.std.specs.List.{find};
ghost use Rattle.std.specs.Option.{option_map};
ghost use Rattle.mod_table.specs.InMemory.{child_of};
ghost use Rattle.started_members.specs.Changes.{IsPlaceOfId, TakesDeeper, behind_deeper, branch_members, branch_of, branches_of, child_for, deeper, has_id, members_changed, members_in, new_child, new_children, respecified, with_member, without_id};

use crate::begins::name_of;
use crate::{Member, MemberState};
use mod_table::Child;
use std::alloc::{AllocError, Global};

// A member, and those below it.
#[derive(Drop)]
struct Branch {
    member: Member,
    below: Vec<Member>,
}

/// The members where each supervisor of this module has these children, in order, and after them those of its own that are not
/// among these. A child is known by its id, and what stands for it stays.
// From the last member on, so that those below a member are there before it. The first branch stands last meanwhile.
pub fn changed_members(
    alloc: Global,
    module: &str,
    children: &[Child],
    mut members: Vec<Member>,
) -> Result<Vec<Member>, AllocError>
    ensures { IfOk result (λ changed. changed.items
        ≡ members_changed «module».now (map child_of children.now) members.items) }
{
    let mut branches = Vec::new(alloc);
    while let Some(member) = members.pop() {
        branches = put_in_front(alloc, module, children, member, branches)?;
    }
    branches.reverse();
    joined(alloc, branches)
}

// A member in front of branches, the first of which stand last and below it.
fn put_in_front(
    alloc: Global,
    module: &str,
    children: &[Child],
    member: Member,
    mut branches: Vec<Branch>,
) -> Result<Vec<Branch>, AllocError>
    ensures { IfOk result (λ bs. reverse (branches_of bs.items)
        ≡ with_member «module».now (map child_of children.now) member
        (reverse (branches_of branches.items))) }
{
    let mut below = take_deeper(alloc, &mut branches, member.depth)?;
    if member.is_supervisor(module) {
        below = name_children(alloc, member.depth.saturating_add(1), children, below)?;
    }
    branches.push(Branch {
        member,
        below: joined(alloc, below)?,
    })?;
    Ok(branches)
}

// Takes out the branches in front, which stand last, that are deeper than this.
fn take_deeper(
    alloc: Global,
    branches: &mut Vec<Branch>,
    depth: usize,
) -> Result<Vec<Branch>, AllocError>
    ensures taken { IfOk result (λ taken. branches_of taken.items
        ≡ deeper depth (reverse (branches_of branches.old.items))) }
    ensures left { OnOk result (reverse (branches_of branches.new.items)
        ≡ behind_deeper depth (reverse (branches_of branches.old.items))) }
{
    let mut taken = Vec::new(alloc);
    while let Some(branch) = next_deeper(branches, depth) {
        taken.push(branch)?;
    }
    Ok(taken)
}

// Takes out the branch in front, which stands last, where it is deeper than this.
fn next_deeper(branches: &mut Vec<Branch>, depth: usize) -> Option<Branch>
    ensures taken { TakesDeeper depth (reverse (branches_of branches.old.items)) result
        (reverse (branches_of branches.new.items)) }
    ensures fewer { IfSome result (λ b. vec_len branches.new < vec_len branches.old) }
{
    if branches.last()?.member.depth <= depth {
        return None;
    }
    branches.pop()
}

// The children that the table names, with what stood under their ids, and after them the others.
fn name_children(
    alloc: Global,
    depth: usize,
    children: &[Child],
    mut earlier: Vec<Branch>,
) -> Result<Vec<Branch>, AllocError>
    ensures { IfOk result (λ bs. branches_of bs.items
        ≡ new_children depth (map child_of children.now) (branches_of earlier.items)) }
{
    let mut named = Vec::with_capacity(alloc, children.len())?;
    for child in children {
        let kept = take_child(&mut earlier, child.id.as_str());
        named.push(child_for(alloc, depth, child, kept)?)?;
    }
    named.append(&mut earlier)?;
    Ok(named)
}

// Takes out the first branch with this id, where there is one.
fn take_child(branches: &mut Vec<Branch>, id: &str) -> Option<Branch>
    ensures taken { option_map branch_of result
        ≡ find (has_id id.now) (branches_of branches.old.items) }
    ensures left { branches_of branches.new.items
        ≡ without_id id.now (branches_of branches.old.items) }
{
    let place = place_of_id(branches.as_slice(), id)?;
    Some(branches.remove(place))
}

// Where the first branch with this id stands.
fn place_of_id(branches: &[Branch], id: &str) -> Option<usize>
    ensures { IsPlaceOfId id.now branches.now result }
{
    for (place, branch) in branches.iter().enumerate() {
        if branch.member.id.as_str() == id {
            return Some(place);
        }
    }
    None
}

// A child of the table: an earlier one, or a new one.
fn child_for(
    alloc: Global,
    depth: usize,
    child: &Child,
    earlier: Option<Branch>,
) -> Result<Branch, AllocError>
    ensures { IfOk result (λ b. branch_of b
        ≡ child_for depth (child_of child.now) (option_map branch_of earlier)) }
{
    match earlier {
        Some(branch) => respecified(alloc, child, branch),
        None => new_child(alloc, depth, child),
    }
}

fn respecified(alloc: Global, child: &Child, mut branch: Branch) -> Result<Branch, AllocError>
    ensures { IfOk result (λ b.
        branch_of b ≡ respecified (child_of child.now) (branch_of branch)) }
{
    branch.member.module = name_of(alloc, child.module.as_str())?;
    branch.member.restart = child.restart;
    branch.member.kind = child.kind;
    Ok(branch)
}

fn new_child(alloc: Global, depth: usize, child: &Child) -> Result<Branch, AllocError>
    ensures { IfOk result (λ b. branch_of b ≡ new_child depth (child_of child.now)) }
{
    Ok(Branch {
        member: Member {
            depth,
            id: name_of(alloc, child.id.as_str())?,
            module: name_of(alloc, child.module.as_str())?,
            restart: child.restart,
            kind: child.kind,
            state: MemberState::Ended,
        },
        below: Vec::new(alloc),
    })
}

// Their members, one branch after another.
fn joined(alloc: Global, branches: Vec<Branch>) -> Result<Vec<Member>, AllocError>
    ensures { IfOk result (λ ms. ms.items ≡ members_in (branches_of branches.items)) }
{
    let mut members = Vec::new(alloc);
    for branch in branches {
        members = with_branch(members, branch)?;
    }
    Ok(members)
}

// A branch after these members.
fn with_branch(mut members: Vec<Member>, branch: Branch) -> Result<Vec<Member>, AllocError>
    ensures { IfOk result (λ ms. ms.items ≡ members.items ++ branch_members (branch_of branch)) }
{
    let Branch { member, mut below } = branch;
    members.push(member)?;
    members.append(&mut below)?;
    Ok(members)
}
