//! Whether what stands for a child stays as it is.
ghost use Rattle.std.specs.Prelude.{◌≡◌};
ghost use Rattle.started_members.specs.Looks.{LookedAt, StateLookedAt, kept_at, now_stays, process_stays};

use crate::{Member, MemberState};
use mod_table::Restart;
use proc_table::{Now, Pid, Standing, Value};
use std::sync::Wait;
use table_access::{Seating, TableAccess};

/// Which children stay as they are.
#[derive(Clone, Copy)]
pub enum Stay {
    /// The processes that are up.
    Up,
    /// The processes that are up, and the temporary ones that weren't given up.
    UpOrTemporary,
}

impl Stay {
    /// Which processes of a child of this restart type stay.
    pub fn kept_at(self, restart: Restart) -> Kept
        ensures { result ≡ kept_at self restart }
    {
        match (self, restart) {
            (Stay::UpOrTemporary, Restart::Temporary) => Kept::Standing,
            _ => Kept::Up,
        }
    }
}

/// Which processes of a child stay as they are.
#[derive(Clone, Copy)]
pub enum Kept {
    /// One that is up.
    Up,
    /// One that wasn't given up, whether it is up or not.
    Standing,
}

impl Kept {
    /// Whether the process stays, where this stands in its slot.
    pub fn keeps(self, value: &Value, pid: Pid) -> bool
        ensures { result ≡ process_stays self pid value.entry.now }
    {
        match &value.now {
            Some(process) => value.round == pid.round && now_stays(process, self),
            None => false,
        }
    }
}

/// Whether what stands for a member stays. It waits for the slot of a process, and leaves it as it is.
pub fn member_stays<R: Wait, S: Seating>(
    rt: &R,
    access: &mut TableAccess<'_, S>,
    member: &Member,
    stay: Stay,
) -> bool
    ensures looked { StateLookedAt (kept_at stay member.now.restart) member.now.state
        result access.old access.new }
{
    match &member.state {
        MemberState::Ended => false,
        MemberState::Process(process) => {
            look(rt, access, process.pid, stay.kept_at(member.restart))
        }
        MemberState::Supervisor(_) => true,
    }
}

fn look<R: Wait, S: Seating>(rt: &R, access: &mut TableAccess<'_, S>, pid: Pid, kept: Kept) -> bool
    ensures looked { LookedAt kept pid result access.old access.new }
{
    let held = access.hold(rt, pid);
    let stays = kept.keeps(held.value(), pid);
    access.release(held, &[]);
    stays
}

// Whether a process that stands stays.
fn now_stays(process: &Now, kept: Kept) -> bool
    ensures { result ≡ now_stays kept process.entry.now }
{
    match kept {
        Kept::Up => matches!(process.standing, Standing::Up),
        Kept::Standing => true,
    }
}
