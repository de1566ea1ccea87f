//! Members that end.
ghost use Rattle.std.specs.Prelude.{◌≡◌, reverse};
ghost use Rattle.started_members.specs.Members.{pids_of, process_in, processes_among};
ghost use Rattle.started_members.specs.Ends.{EndedAt, EndedInOrder, MemberEnded, stands};

use crate::Member;
use proc_table::{Entry, Pid, Value};
use std::sync::Wait;
use table_access::{Seating, TableAccess};

/// The processes of these members are given up, the last first, but for those that were given up before. It waits for their slots,
/// and without end for one that the handler itself holds. It takes no memory.
pub fn end_all<R: Wait, S: Seating>(rt: &R, access: &mut TableAccess<'_, S>, mut members: &[Member])
    ensures ended { EndedInOrder
        (reverse (pids_of (processes_among members.now))) access.old access.new }
{
    while let Some((last, others)) = members.split_last() {
        end_member(rt, access, last);
        members = others;
    }
}

/// The process of a member is given up, where one stands for it, unless it was before.
pub fn end_member<R: Wait, S: Seating>(rt: &R, access: &mut TableAccess<'_, S>, member: &Member)
    ensures ended { MemberEnded (process_in member.now) access.old access.new }
{
    if let Some(process) = member.process() {
        end(rt, access, process.pid);
    }
}

// The process is given up, unless it was before.
fn end<R: Wait, S: Seating>(rt: &R, access: &mut TableAccess<'_, S>, pid: Pid)
    ensures ended { EndedAt pid access.old access.new }
{
    let mut held = access.hold(rt, pid);
    if stands(held.value(), pid) {
        held.give_up();
        access.release(held, &[Entry::GivenUp]);
    } else {
        access.release(held, &[]);
    }
}

// Whether the process stands there, in its round.
fn stands(value: &Value, pid: Pid) -> bool
    ensures { result ≡ stands pid value.entry.now }
{
    value.round == pid.round && value.now.is_some()
}
