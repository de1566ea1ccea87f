//! Workers that wait for each other.
ghost use Rattle.std.specs.Prelude.{◌≡◌, IfSome};

use crate::processes::begin;
use proc_table::{HandlerSeat, Pass, Pid, ProcTable};
use proc_workers::{Ended, Gate, Inbox, Job, Note, mailbox, work};
use std::alloc::Global;
use std::sync::Wait;
use std::sync::atomic::{AtomicBool, Ordering};
use std::thread;
use std::thread::{Threads, join};
use text_cases::Answer;

/// Holds job 1 back until job 2 is answered, at most 10,000 turns.
#[derive(Drop)]
struct Meeting {
    answered: AtomicBool,
    met: AtomicBool,
}

impl Gate for Meeting {
    fn before(&self, job: &Job) {
        if job.number != 1 {
            return;
        }
        for _ in 0..10_000 {
            if self.answered.load(Ordering::SeqCst) {
                self.met.store(true, Ordering::SeqCst);
                return;
            }
            thread::yield_now();
        }
    }

    fn after(&self, answer: &proc_workers::Answer) {
        if answer.number == 2 {
            self.answered.store(true, Ordering::SeqCst);
        }
    }
}

/// What a worker begins with.
#[derive(Drop)]
pub(crate) struct NewWorker {
    alloc: Global,
    pass: Pass,
    pid: Pid,
    inbox: Inbox,
}

impl NewWorker {
    fn work<G: Gate, R: Wait>(self, rt: &R, table: &ProcTable, gate: &G) -> Ended
        requires { self.pass.table ≡ table.now }
        ensures { result.pass.table ≡ table.now }
    {
        let NewWorker {
            alloc,
            pass,
            pid,
            inbox,
        } = self;
        work(rt, alloc, table, pass, pid, inbox, gate)
    }
}

/// Appends whether two workers run beside each other: a job of the first waits until the second has answered its own. Workers that
/// keep each other out can't pass it.
pub(crate) fn push_gated<R: Threads + Wait + Sync>(rt: &R, alloc: Global, answer: &mut Answer) {
    let Ok((table, mut seat)) = ProcTable::new(alloc) else {
        return answer.note_no_memory();
    };
    let Some(first) = worker_with_job(rt, alloc, &table, &mut seat, 1, answer) else {
        return;
    };
    let Some(second) = worker_with_job(rt, alloc, &table, &mut seat, 2, answer) else {
        return;
    };
    let meeting = Meeting {
        answered: AtomicBool::new(false),
        met: AtomicBool::new(false),
    };
    both_work(rt, &table, first, second, &meeting);
    answer.push(if meeting.met.load(Ordering::SeqCst) {
        "met"
    } else {
        "not met"
    });
}

// A worker of a process that begins, with one job.
fn worker_with_job<R: Wait>(
    rt: &R,
    alloc: Global,
    table: &ProcTable,
    seat: &mut HandlerSeat,
    number: u32,
    answer: &mut Answer,
) -> Option<NewWorker>
    requires { seat.old.table ≡ table.now }
    ensures seat { seat.new.table ≡ seat.old.table }
    ensures worker { IfSome result (λ worker. worker.pass.table ≡ table.now) }
{
    let pid = begin(rt, alloc, table, seat, None, "permanent", answer)?;
    let Some(inbox) = with_job(rt, alloc, number, pid) else {
        answer.note_no_memory();
        return None;
    };
    let pass = table.new_pass(seat);
    Some(NewWorker {
        alloc,
        pass,
        pid,
        inbox,
    })
}

// A mailbox with a job of the process, whose sender is gone.
fn with_job<R: Wait>(rt: &R, alloc: Global, number: u32, pid: Pid) -> Option<Inbox> {
    let (mut sender, inbox) = mailbox(alloc).ok()?;
    let job = Job {
        number,
        pid,
        input: 1,
    };
    sender.send(rt, Note::Job(job)).ok()?;
    Some(inbox)
}

fn both_work<G: Gate + Sync, R: Threads + Wait + Sync>(
    rt: &R,
    table: &ProcTable,
    first: NewWorker,
    second: NewWorker,
    gate: &G,
)
    requires first { first.pass.table ≡ table.now }
    requires second { second.pass.table ≡ table.now }
{
    join(
        rt,
        || first.work(rt, table, gate),
        || second.work(rt, table, gate),
    );
}
