//! Equal members.
ghost use Rattle.std.specs.Prelude.{◌≡◌, IfOk};

use crate::{Member, MemberState, StartedProcess};
use std::alloc::{AllocError, Global};

/// Equal members: the same processes stand for them.
pub fn copy_members(alloc: Global, members: &[Member]) -> Result<Vec<Member>, AllocError>
    ensures { IfOk result (λ copies. copies.items ≡ members.now) }
{
    let mut copies = Vec::with_capacity(alloc, members.len())?;
    for member in members {
        copies.push(copy_member(alloc, member)?)?;
    }
    Ok(copies)
}

fn copy_member(alloc: Global, member: &Member) -> Result<Member, AllocError>
    ensures { IfOk result (λ copy. copy ≡ member.now) }
{
    Ok(Member {
        depth: member.depth,
        id: member.id.copy(alloc)?,
        module: member.module.copy(alloc)?,
        restart: member.restart,
        kind: member.kind,
        state: copy_state(alloc, &member.state)?,
    })
}

fn copy_state(alloc: Global, state: &MemberState) -> Result<MemberState, AllocError>
    ensures { IfOk result (λ copy. copy ≡ state.now) }
{
    match state {
        MemberState::Ended => Ok(MemberState::Ended),
        MemberState::Process(StartedProcess { id, module, pid }) => {
            Ok(MemberState::Process(StartedProcess {
                id: id.copy(alloc)?,
                module: module.copy(alloc)?,
                pid: *pid,
            }))
        }
        MemberState::Supervisor(module) => Ok(MemberState::Supervisor(module.copy(alloc)?)),
    }
}
