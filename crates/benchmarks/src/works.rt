//! What a thread does many times.
ghost use Rattle.std.specs.Prelude.{◌≡◌};

use mod_table::{Step, Worker};
use proc_table::{HandlerSeat, Pass, Pid, ProcTable};
use std::sync::{Mutex, Wait};
use std::thread::{Threads, join};

/// How often a thread does it.
pub(crate) const TIMES: u32 = 1_000_000;

/// What a thread does `TIMES` times.
pub(crate) trait Work {
    fn work<R: Wait>(self, rt: &R);
}

/// Calls of a process by one client. Where nobody else has the process, a call is one `try_call`.
#[derive(Drop)]
pub(crate) struct Calls<'t> {
    table: &'t ProcTable,
    pass: Pass,
    pid: Pid,
    ghost sits: { pass.table ≡ table.now },
}

impl Calls<'_> {
    pub(crate) fn new<'t>(table: &'t ProcTable, seat: &mut HandlerSeat, pid: Pid) -> Calls<'t>
        requires { seat.old.table ≡ table.now }
        ensures { seat.new.table ≡ seat.old.table }
    {
        Calls {
            table,
            pass: table.new_pass(seat),
            pid,
        }
    }
}

impl Work for Calls<'_> {
    fn work<R: Wait>(self, rt: &R) {
        let Calls { table, pass, pid } = self;
        let mut pass = pass;
        for _ in 0..TIMES {
            table.call(rt, &mut pass, pid, 1);
        }
    }
}

/// The same work without a table of processes: with a state of its own, or with one that is shared under a lock of std.
#[derive(Drop)]
pub(crate) struct Steps<'l> {
    pub(crate) worker: Worker,
    pub(crate) lock: Option<&'l Mutex<u32>>,
}

impl Work for Steps<'_> {
    fn work<R: Wait>(self, rt: &R) {
        match self.lock {
            Some(lock) => step_under(rt, &self.worker, lock),
            None => step_alone(&self.worker),
        }
    }
}

fn step_alone(worker: &Worker) {
    let mut state = 0;
    for _ in 0..TIMES {
        step(worker, &mut state);
    }
}

fn step_under<R: Wait>(rt: &R, worker: &Worker, lock: &Mutex<u32>) {
    for _ in 0..TIMES {
        step(worker, &mut lock.lock(rt));
    }
}

fn step(worker: &Worker, state: &mut u32) {
    if let Step::Next(next, _) = worker.step(*state, 1) {
        *state = next;
    }
}

/// Two threads, each with its work.
pub(crate) fn two_at_once<R: Threads + Wait + Sync, A: Work + Drop + Send>(
    rt: &R,
    first: A,
    second: A,
) {
    join(rt, || first.work(rt), || second.work(rt));
}
