//! Many calls of one process, which threads send to a worker.
ghost use Rattle.std.specs.Prelude.{◌≡◌, [], OnErr, IfOk, IfSome};
ghost use Rattle.proc_table.specs.Waits.{IsAnswer};
ghost use Rattle.proc_workers.specs.Counted.{HasCalled, HasRoomForOne, noted};
ghost use Rattle.proc_workers.specs.Floods.{IsBrokenOff, IsFlooded};
ghost use Rattle.proc_workers.specs.Processes.{IsProcess};

use crate::{Inbox, Job, Note, Sender, mailbox};
use proc_table::{HandlerSeat, Pass, Pid, ProcTable, Tried};
use std::alloc::{AllocError, Global};
use std::sync::Wait;
use std::thread;
use std::thread::Threads;

/// How often each outcome came, and how often the process was down.
#[derive(Clone, Copy)]
pub struct FloodCounts {
    pub done: u32,
    pub crashed: u32,
    pub ended: u32,
    pub down: u32,
}

impl FloodCounts {
    // Counts an answer.
    fn note(&mut self, tried: Tried)
        requires answer { IsAnswer tried }
        requires room { HasRoomForOne self.old }
        ensures { self.new ≡ noted tried self.old }
    {
        match tried {
            Tried::Done(_) => self.done += 1,
            Tried::Crashed => self.crashed += 1,
            Tried::Ended(_) => self.ended += 1,
            Tried::Down => self.down += 1,
            Tried::Busy | Tried::Held => unreachable!(),
        }
    }
}

/// Calls the process so often with one input: two threads send the jobs, the first of them the larger half, to a worker in the
/// calling one. It is refused where memory is, at the start, or where a sender with jobs gets no thread. Some of the calls may
/// have been made then, and no others.
pub fn flood<R: Threads + Wait + Sync>(
    rt: &R,
    alloc: Global,
    table: &ProcTable,
    seat: &mut HandlerSeat,
    pid: Pid,
    input: u32,
    times: u32,
) -> Result<FloodCounts, AllocError>
    requires table { seat.old.table ≡ table.now }
    requires alone { seat.old.view.lent ≡ [] }
    ensures table { seat.new.table ≡ seat.old.table }
    ensures flooded { IfOk result (λ f. IsFlooded pid input times seat.old.view f seat.new.view) }
    ensures refused { OnErr result (IsBrokenOff pid input times seat.old.view seat.new.view) }
{
    let (mut first, inbox) = mailbox(alloc)?;
    let second = first.second(alloc)?;
    let lower = times / 2;
    let larger = times - lower;
    let pass = table.new_pass(seat);
    let (pass, counts) = thread::scope(
        thread::scope_env(),
        rt,
        |scope| -> (Pass, Option<FloodCounts>)
            requires { pass.table ≡ table.now }
            ensures { (result.0.table ≡ table.entry.now)
                × HasCalled pid input times pass.view result.1 result.0.view }
        {
            // A sender that gets no thread is dropped here, so that the worker doesn't wait for it.
            drop(scope.spawn(move || send_jobs(rt, first, pid, input, larger)));
            drop(scope.spawn(move || send_jobs(rt, second, pid, input, lower)));
            answer_jobs(rt, table, pass, pid, input, times, inbox)
        },
    );
    table.take_back(seat, pass);
    match counts {
        Some(counts) => Ok(counts),
        None => Err(AllocError),
    }
}

// The worker of a flood makes no other calls than those of the flood, whatever it is sent, and needs no memory for them. It ends
// without counts where the senders are gone before all calls are made. The inbox goes with it: a sender would wait for ever for
// room in one that nobody reads.
fn answer_jobs<R: Wait>(
    rt: &R,
    table: &ProcTable,
    pass: Pass,
    pid: Pid,
    input: u32,
    times: u32,
    inbox: Inbox,
) -> (Pass, Option<FloodCounts>)
    requires { pass.table ≡ table.now }
    ensures table { result.0.table ≡ table.now }
    ensures calls { HasCalled pid input times pass.view result.1 result.0.view }
{
    let mut pass = pass;
    let mut inbox = inbox;
    let mut counts = FloodCounts {
        done: 0,
        crashed: 0,
        ended: 0,
        down: 0,
    };
    for _ in 0..times {
        let Some(job) = next_job(rt, &mut inbox, pid, input) else {
            return (pass, None);
        };
        let tried = table.call(rt, &mut pass, job.pid, job.input);
        counts.note(tried);
    }
    (pass, Some(counts))
}

// The next job, if it is a call of the process with this input.
fn next_job<R: Wait>(rt: &R, inbox: &mut Inbox, pid: Pid, input: u32) -> Option<Job>
    ensures { IfSome result (λ job. (job.input ≡ input) × IsProcess pid job.pid) }
{
    match inbox.take(rt) {
        Some(Note::Job(job)) if job.is_of(pid, input) => Some(job),
        _ => None,
    }
}

// Jobs with the numbers from 0 on, until the worker is gone.
fn send_jobs<R: Wait>(rt: &R, sender: Sender, pid: Pid, input: u32, times: u32) {
    let mut sender = sender;
    for number in 0..times {
        let job = Job { number, pid, input };
        if sender.send(rt, Note::Job(job)).is_err() {
            return;
        }
    }
}
