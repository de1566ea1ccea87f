//! Workers and their mailboxes: `proc_workers`.
ghost use Rattle.std.specs.Prelude.{◌≡◌};

use crate::processes::{begun, push_tried};
use proc_table::{HandlerSeat, Pid, ProcTable};
use proc_workers::{Answer as Answered, EndCause, Gate, Inbox, Job, Note, mailbox, work};
use std::alloc::Global;
use std::sync::Wait;
use text_cases::Answer;

// A worker that counts its calls.
const WORKER: &str = r#"{worker,ch3,"1",0,[{add,1,1}]}."#;

// A gate that is open.
struct Open;

impl Gate for Open {
    fn before(&self, _job: &Job) {}

    fn after(&self, _answer: &Answered) {}
}

/// Appends what a worker answers that is suspended, gets a job from each of two senders, is resumed and stops, and what a sender is
/// answered then.
pub(crate) fn push_worker<R: Wait>(rt: &R, alloc: Global, answer: &mut Answer) {
    match begun(rt, alloc, WORKER) {
        Some((table, mut seat, pid)) => push_work(rt, alloc, &table, &mut seat, pid, answer),
        None => answer.note_no_memory(),
    }
}

fn push_work<R: Wait>(
    rt: &R,
    alloc: Global,
    table: &ProcTable,
    seat: &mut HandlerSeat,
    pid: Pid,
    answer: &mut Answer,
)
    requires { seat.old.table ≡ table.now }
{
    let Some(inbox) = sent(rt, alloc, pid) else {
        return answer.note_no_memory();
    };
    let pass = table.new_pass(seat);
    let ended = work(rt, alloc, table, pass, pid, inbox, &Open);
    for answered in ended.answers.as_slice() {
        answer.push_counted("", u64::from(answered.number));
        answer.push(" ");
        push_tried(answered.tried, answer);
        answer.push(", ");
    }
    answer.push_counted("left ", ended.left.len() as u64);
    push_cause(ended.cause, answer);
}

// A mailbox with the notes, whose senders are gone.
fn sent<R: Wait>(rt: &R, alloc: Global, pid: Pid) -> Option<Inbox> {
    let (mut first, inbox) = mailbox(alloc).ok()?;
    let mut second = first.second(alloc).ok()?;
    first.send(rt, Note::Suspend).ok()?;
    first.send(rt, Note::Job(job(1, pid))).ok()?;
    second.send(rt, Note::Job(job(2, pid))).ok()?;
    first.send(rt, Note::Resume).ok()?;
    first.send(rt, Note::Stop).ok()?;
    Some(inbox)
}

fn job(number: u32, pid: Pid) -> Job {
    Job {
        number,
        pid,
        input: 1,
    }
}

fn push_cause(cause: EndCause, answer: &mut Answer) {
    answer.push(match cause {
        EndCause::Stopped => ", Stopped",
        EndCause::Closed => ", Closed",
        EndCause::NoMemory => ", NoMemory",
    });
}
