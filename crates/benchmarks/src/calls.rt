//! How fast processes are called.
//!
//! One process is called by one, two and four clients at once, each in a thread of its own, and four processes by a client
//! each. The same work is done by plain calls of the process's table, and under a lock of std. Each thread does it 1,000,000
//! times. How often a second it was done, and the processor time that it took, is written on standard error.
ghost use Rattle.std.specs.Prelude.{◌≡◌};

use crate::watch::Watch;
use crate::works::{Calls, Steps, Work, two_at_once};
use mod_table::{Restart, Table, Worker, read_mod};
use proc_history::{Beginning, Name};
use proc_table::{HandlerSeat, Pid, ProcTable, SLOTS};
use std::alloc::Global;
use std::io::Eprint;
use std::sync::{Mutex, Wait};
use std::thread::{Threads, join};
use std::time::{Clock, CpuClock};

/// A process that counts its calls.
const COUNTER: &[u8] = b"{worker,counter,\"1\",0,[{add,1,1}]}.";

fn name(alloc: Global, text: &str) -> Option<Name> {
    Some(Name::new(String::from_str(alloc, text).ok()?))
}

// A process that counts its calls.
fn beginning(alloc: Global, worker: &Worker) -> Option<Beginning> {
    Some(Beginning {
        app: name(alloc, "bench")?,
        id: name(alloc, "counter")?,
        restart: Restart::Permanent,
        table: worker.copy(alloc).ok()?,
    })
}

// One begins in each slot of a new table, with round 1.
fn begin_all<R: Wait>(
    rt: &R,
    alloc: Global,
    table: &ProcTable,
    seat: &mut HandlerSeat,
    worker: &Worker,
) -> Option<()>
    requires { seat.old.table ≡ table.now }
    ensures { seat.new.table ≡ seat.old.table }
{
    for _ in 0..SLOTS {
        let begins = beginning(alloc, worker)?;
        table.begin_lowest(rt, seat, begins).ok()?;
    }
    Some(())
}

// Measures a work that one thread does.
fn by_one<R: Wait + Clock + CpuClock + Eprint, A: Work + Drop>(
    rt: &R,
    what: &str,
    work: A,
) -> Option<()> {
    let watch = Watch::start(rt).ok()?;
    work.work(rt);
    watch.report(rt, what, 1).ok()
}

// Measures works that two threads do.
fn by_two<R: Threads + Wait + Sync + Clock + CpuClock + Eprint, A: Work + Drop + Send>(
    rt: &R,
    what: &str,
    works: (A, A),
) -> Option<()> {
    let (first, second) = works;
    let watch = Watch::start(rt).ok()?;
    two_at_once(rt, first, second);
    watch.report(rt, what, 2).ok()
}

// Measures works that four threads do.
fn by_four<R: Threads + Wait + Sync + Clock + CpuClock + Eprint, A: Work + Drop + Send>(
    rt: &R,
    what: &str,
    one_half: (A, A),
    other_half: (A, A),
) -> Option<()> {
    let (first, second) = one_half;
    let (third, fourth) = other_half;
    let watch = Watch::start(rt).ok()?;
    join(
        rt,
        || two_at_once(rt, first, second),
        || two_at_once(rt, third, fourth),
    );
    watch.report(rt, what, 4).ok()
}

// Two clients, who call the processes in these slots.
fn two_clients<'t>(
    table: &'t ProcTable,
    seat: &mut HandlerSeat,
    first: usize,
    second: usize,
) -> Option<(Calls<'t>, Calls<'t>)>
    requires { seat.old.table ≡ table.now }
    ensures { seat.new.table ≡ seat.old.table }
{
    let first = Pid::new(first, 1)?;
    let second = Pid::new(second, 1)?;
    Some((
        Calls::new(table, seat, first),
        Calls::new(table, seat, second),
    ))
}

// Calls of the processes in these slots, by a client each.
fn calls_by_four<R: Threads + Wait + Sync + Clock + CpuClock + Eprint>(
    rt: &R,
    what: &str,
    table: &ProcTable,
    seat: &mut HandlerSeat,
    slots: [usize; 4],
) -> Option<()>
    requires { seat.old.table ≡ table.now }
    ensures { seat.new.table ≡ seat.old.table }
{
    let [one, two, three, four] = slots;
    let first = two_clients(table, seat, one, two)?;
    let second = two_clients(table, seat, three, four)?;
    by_four(rt, what, first, second)
}

// Calls of one process, and of four at once. The table lays the words of slots that are 32 apart side by side, eight of them in
// one line of a processor's cache.
fn calls_at<R: Threads + Wait + Sync + Clock + CpuClock + Eprint>(
    rt: &R,
    table: &ProcTable,
    seat: &mut HandlerSeat,
) -> Option<()>
    requires { seat.old.table ≡ table.now }
{
    let of_one = "calls of one process";
    let side_by_side = "calls of four processes side by side";
    let apart = "calls of four processes in slots apart";
    let in_one_line = "calls of four processes in one line of the cache";
    let pid = Pid::new(0, 1)?;
    by_one(rt, of_one, Calls::new(table, seat, pid))?;
    let two = two_clients(table, seat, 0, 0)?;
    by_two(rt, of_one, two)?;
    calls_by_four(rt, of_one, table, seat, [0, 0, 0, 0])?;
    calls_by_four(rt, side_by_side, table, seat, [0, 1, 2, 3])?;
    calls_by_four(rt, apart, table, seat, [0, 9, 18, 27])?;
    calls_by_four(rt, in_one_line, table, seat, [0, 32, 64, 96])
}

// Calls the processes of a new table.
fn calls<R: Threads + Wait + Sync + Clock + CpuClock + Eprint>(
    rt: &R,
    alloc: Global,
    worker: &Worker,
) -> Option<()> {
    let (table, seat) = ProcTable::new(alloc).ok()?;
    let mut seat = seat;
    begin_all(rt, alloc, &table, &mut seat, worker)?;
    calls_at(rt, &table, &mut seat)
}

fn steps<'l>(alloc: Global, worker: &Worker, lock: Option<&'l Mutex<u32>>) -> Option<Steps<'l>> {
    Some(Steps {
        worker: worker.copy(alloc).ok()?,
        lock,
    })
}

fn two_steps<'l>(
    alloc: Global,
    worker: &Worker,
    lock: Option<&'l Mutex<u32>>,
) -> Option<(Steps<'l>, Steps<'l>)> {
    let first = steps(alloc, worker, lock)?;
    Some((first, steps(alloc, worker, lock)?))
}

// The same work without a table of processes.
fn steps_by<R: Threads + Wait + Sync + Clock + CpuClock + Eprint>(
    rt: &R,
    alloc: Global,
    what: &str,
    worker: &Worker,
    lock: Option<&Mutex<u32>>,
) -> Option<()> {
    by_one(rt, what, steps(alloc, worker, lock)?)?;
    let first = two_steps(alloc, worker, lock)?;
    let second = two_steps(alloc, worker, lock)?;
    by_four(rt, what, first, second)
}

// All that is measured, with this table of the processes.
fn bench_of<R: Threads + Wait + Sync + Clock + CpuClock + Eprint>(
    rt: &R,
    alloc: Global,
    worker: &Worker,
) -> Option<()> {
    calls(rt, alloc, worker)?;
    steps_by(rt, alloc, "plain calls", worker, None)?;
    let lock = Mutex::new(0);
    steps_by(rt, alloc, "steps under one lock", worker, Some(&lock))
}

/// Measures calls of processes. Nothing where memory, a slot or a clock is missing.
pub(crate) fn measure_calls<R: Threads + Wait + Sync + Clock + CpuClock + Eprint>(
    rt: &R,
    alloc: Global,
) -> Option<()> {
    match read_mod(alloc, COUNTER) {
        Ok(Table::Worker(worker)) => bench_of(rt, alloc, &worker),
        _ => None,
    }
}
