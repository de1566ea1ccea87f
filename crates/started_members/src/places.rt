//! Children of supervisors, by their places among members.
ghost use Rattle.std.specs.Prelude.{◌≡◌, ◌<◌, ◌≤◌, ◌++◌, IfSome, [], drop, length, take, vec_capacity, ◌+◌};
ghost use Rattle.std.specs.List.{remove_range};
ghost use Rattle.std.specs.Option.{option_and_then, option_map_or};
ghost use Rattle.started_members.specs.Places.{AreAt, child_at, child_in, deeper_members, place_at, with_below};

use crate::Member;

/// The child of this id of the first supervisor of this module among these members, and those below it; none where there is no such
/// child.
pub fn with_below<'a>(members: &'a [Member], module: &str, id: &str) -> &'a [Member]
    ensures { result.now ≡ option_map_or with_below (child_in «module».now id.now members.now) [] }
{
    match range_of_child(members, module, id) {
        Some((start, end)) => &members[start..end],
        None => &[],
    }
}

/// Where the child of this id of the first supervisor of this module stands among these members, with those below it.
pub fn range_of_child(members: &[Member], module: &str, id: &str) -> Option<(usize, usize)>
    ensures { AreAt (child_in «module».now id.now members.now) members.now result }
{
    let start = place_of_child(members, module, id)?;
    let below = deeper_count(&members[start + 1..], members[start].depth);
    Some((start, start + 1 + below))
}

// After how many of these members it stands.
fn place_of_child(members: &[Member], module: &str, id: &str) -> Option<usize>
    ensures inside { IfSome result (λ n. n < length members.now) }
    ensures there { option_and_then (λ n. place_at n members.now) result
        ≡ child_in «module».now id.now members.now }
{
    for (i, member) in members.iter().enumerate() {
        if member.is_supervisor(module) {
            let below = place_below(&members[i + 1..], member.depth.saturating_add(1), id)?;
            return Some(i + 1 + below);
        }
    }
    None
}

// After how many of these members the first with this id and this depth stands, before any that stands less deep.
fn place_below(members: &[Member], depth: usize, id: &str) -> Option<usize>
    ensures inside { IfSome result (λ n. n < length members.now) }
    ensures there { option_and_then (λ n. place_at n members.now) result
        ≡ child_at depth id.now members.now }
{
    for (i, member) in members.iter().enumerate() {
        if member.depth < depth {
            return None;
        }
        if member.depth == depth && member.id.as_str() == id {
            return Some(i);
        }
    }
    None
}

// How many of the first members stand deeper than this.
fn deeper_count(members: &[Member], depth: usize) -> usize
    ensures { result ≡ length (deeper_members depth members.now) }
{
    for (i, member) in members.iter().enumerate() {
        if member.depth <= depth {
            return i;
        }
    }
    members.len()
}

/// Takes out the members from the first place on, up to the other.
pub fn take_out(members: &mut Vec<Member>, start: usize, end: usize)
    requires first { start ≤ end }
    requires inside { end ≤ length members.old.items }
    ensures others { members.new.items ≡ remove_range members.old.items start end }
    ensures room { vec_capacity members.new ≡ vec_capacity members.old }
{
    members.drain(start..end);
}

/// Puts members in from this place on. There is room for them.
pub fn put_in(members: &mut Vec<Member>, place: usize, mut new: Vec<Member>)
    requires inside { place ≤ length members.old.items }
    requires room { length members.old.items + length new.items ≤ vec_capacity members.old }
    ensures { members.new.items ≡ take place members.old.items
        ++ (new.items ++ drop place members.old.items) }
{
    while let Some(member) = new.pop() {
        let Ok(()) = members.insert(place, member) else {
            unreachable!();
        };
    }
}
