//! Children of supervisors that end.
ghost use Rattle.std.specs.Prelude.{◌≡◌, ◌<◌, ◌≤◌, ◌++◌, [], drop, length, reverse, slice_index_or, take, if◌then◌else◌};
ghost use Rattle.std.specs.Option.{option_map_or};
ghost use Rattle.started_members.specs.Places.{ChildEndedUnless, ChildLookedAt, child_in, ended_child, members_with, nothing_kept, specification_kept, with_below};
ghost use Rattle.started_members.specs.Ends.{EndedInOrder};
ghost use Rattle.proc_table.specs.declared.view.View.{View};
ghost use Rattle.started_members.specs.declared.looks.Stay.TheVariants.{Up};
ghost use Rattle.started_members.specs.declared.member.Member.{Member as Part};
ghost use Rattle.started_members.specs.Members.{pids_of, processes_among};

use crate::ends::{end_all, end_member};
use crate::looks::{Stay, member_stays};
use crate::places::{range_of_child, take_out};
use crate::{Member, MemberState};
use mod_table::Restart;
use std::sync::Wait;
use table_access::{Seating, TableAccess};

/// The child of this id of the first supervisor of this module among these members ends, and those below it: their processes are
/// given up, the last first. Its specification stays, unless it is temporary. Nothing is done where there is no such child.
pub fn terminate<R: Wait, S: Seating>(
    rt: &R,
    access: &mut TableAccess<'_, S>,
    members: &mut Vec<Member>,
    module: &str,
    id: &str,
)
    ensures ended { EndedInOrder (reverse (pids_of (processes_among
        (option_map_or with_below (child_in «module».now id.now members.old.items) []))))
        access.old access.new }
    ensures members { members.new.items
        ≡ members_with specification_kept «module».now id.now members.old.items }
{
    let Some((start, end)) = range_of_child(members.as_slice(), module, id) else {
        return;
    };
    end_all(rt, access, &members[start..end]);
    remove_below(members, start, end);
}

/// The child of this id of the first supervisor of this module among these members goes, unless it is up. It answers whether
/// nothing was done: the child is up, or there is none.
pub fn delete<R: Wait, S: Seating>(
    rt: &R,
    access: &mut TableAccess<'_, S>,
    members: &mut Vec<Member>,
    module: &str,
    id: &str,
) -> bool
    ensures ended { (look : View) × ChildLookedAt Up
        (child_in «module».now id.now members.old.items) result access.old look
        × ChildEndedUnless result (child_in «module».now id.now members.old.items)
        look access.new }
    ensures members { members.new.items ≡ (if result then members.old.items
        else members_with nothing_kept «module».now id.now members.old.items) }
{
    let Some((start, end)) = range_of_child(members.as_slice(), module, id) else {
        return true;
    };
    if member_stays(rt, access, &members[start], Stay::Up) {
        return true;
    }
    end_member(rt, access, &members[start]);
    take_out(members, start, end);
    false
}

// The child at the first place has ended, and those up to the other place below it. Of these nothing is kept, and of the child what
// is kept of one that has ended.
fn remove_below(members: &mut Vec<Member>, start: usize, end: usize)
    requires first { start < end }
    requires inside { end ≤ length members.old.items }
    ensures { (d : Part) → members.new.items ≡ take start members.old.items
        ++ (ended_child (slice_index_or members.old.items start d) ++ drop end members.old.items) }
{
    match members[start].restart {
        Restart::Temporary => take_out(members, start, end),
        Restart::Permanent | Restart::Transient => {
            members[start].state = MemberState::Ended;
            take_out(members, start + 1, end);
        }
    }
}
