//! A worker, from its first note to its end.
ghost use Rattle.std.specs.Prelude.{◌≡◌};
ghost use Rattle.proc_workers.specs.Work.{HasAnswered, HasEnded};

use crate::desk::Desk;
use crate::{Answer, Gate, Inbox, Job, Note};
use proc_table::{Pass, Pid, ProcTable};
use std::alloc::Global;
use std::sync::Wait;

/// Why a worker ended.
#[derive(Clone, Copy, Debug, PartialEq, Eq)]
pub enum EndCause {
    /// The worker took `Stop`.
    Stopped,
    /// All senders are gone, and no note waits.
    Closed,
    /// No memory was left for a job more.
    NoMemory,
}

/// What a worker hands back.
#[derive(Drop)]
pub struct Ended {
    pub pass: Pass,
    /// As long as it is there, a sender waits for room in it.
    pub inbox: Inbox,
    /// In the order of the jobs.
    pub answers: Vec<Answer>,
    /// The jobs that it took and didn't answer, in order.
    pub left: Vec<Job>,
    pub cause: EndCause,
}

/// Calls the process for each job that comes, until the worker ends. A job that names another process is answered `Down`.
pub fn work<G: Gate, R: Wait>(
    rt: &R,
    alloc: Global,
    table: &ProcTable,
    pass: Pass,
    pid: Pid,
    inbox: Inbox,
    gate: &G,
) -> Ended
    requires { pass.table ≡ table.now }
    ensures table { result.pass.table ≡ pass.table }
    ensures calls { HasAnswered pid pass.view result.answers.items result.pass.view }
    ensures jobs { HasEnded inbox result }
{
    let mut inbox = inbox;
    let mut desk = Desk::new(alloc, pass);
    for _ in rt.forever() {
        if desk.make_room().is_err() {
            return desk.end(inbox, EndCause::NoMemory);
        }
        match inbox.take(rt) {
            Some(Note::Job(job)) => desk.take_job(rt, table, pid, gate, job),
            Some(Note::Suspend) => desk.suspend(),
            Some(Note::Resume) => desk.resume(rt, table, pid, gate),
            Some(Note::Stop) => return desk.end(inbox, EndCause::Stopped),
            None => return desk.end(inbox, EndCause::Closed),
        }
    }
    unreachable!()
}
