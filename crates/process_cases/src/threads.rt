//! What clients see of one process, each in a thread of its own.
ghost use Rattle.std.specs.Prelude.{◌≡◌};

use crate::clients::push_peek;
use crate::processes::begun;
use proc_table::{HandlerSeat, Pass, Peeked, Pid, ProcTable, Tried};
use std::alloc::Global;
use std::sync::{Barrier, Wait};
use std::thread;
use std::thread::{Threads, join};
use text_cases::{Answer, first_word};

/// How often a client looks for each of its calls, at most.
const MOST_LOOKS: u64 = 1_000_000;

/// What a client was answered: how many of its calls were, the sum of the replies, and the last one. And whether it then saw the
/// calls of both.
#[derive(Clone, Copy)]
struct Heard {
    answered: u32,
    sum: u64,
    last: u32,
    saw_all: bool,
}

const NOTHING_HEARD: Heard = Heard {
    answered: 0,
    sum: 0,
    last: 0,
    saw_all: false,
};

// A client starts with the other one, calls a process so many times, and then looks for twice as many calls in all.
fn call_often<R: Wait>(
    rt: &R,
    table: &ProcTable,
    start: &Barrier,
    pass: Pass,
    pid: Pid,
    count: u32,
) -> Heard
    requires { pass.table ≡ table.now }
{
    let _ = start.wait(rt);
    let mut pass = pass;
    let mut heard = NOTHING_HEARD;
    for _ in 0..count {
        let answer = table.call(rt, &mut pass, pid, 1);
        heard.note(answer);
    }
    heard.saw_all = sees_calls(table, pass, pid, count);
    heard
}

impl Heard {
    fn note(&mut self, answer: Tried) {
        match answer {
            Tried::Done(reply) => {
                self.answered = self.answered.saturating_add(1);
                self.sum = self.sum.saturating_add(reply as u64);
                self.last = reply;
            }
            _ => {}
        }
    }
}

// Whether a client, after so many calls of its own, sees those of both.
fn sees_calls(table: &ProcTable, pass: Pass, pid: Pid, count: u32) -> bool
    requires { pass.table ≡ table.now }
{
    let mut pass = pass;
    for _ in 0..MOST_LOOKS.saturating_mul(count as u64) {
        if let Peeked::Seen(state) = table.try_peek(&mut pass, pid) {
            if state >= count.saturating_mul(2) {
                return true;
            }
        }
        thread::yield_now();
    }
    false
}

// The handler holds a process and lets it go so many times.
fn hold_often<R: Wait>(rt: &R, table: &ProcTable, seat: HandlerSeat, pid: Pid, count: u32)
    requires { seat.table ≡ table.now }
{
    let mut seat = seat;
    for _ in 0..count {
        let held = table.hold(rt, &mut seat, pid);
        table.release(&mut seat, held, &[]);
    }
}

/// Two clients call a process so many times each, from one moment on, while the handler holds it and lets it go so many times.
/// Then each looks for the calls of both, so one thread alone can't do it. Appends how many calls of each were answered, the sum
/// of all replies and the greatest, whether both saw all calls, and what another client peeks then: numbers that don't depend on
/// which call comes first.
pub(crate) fn push_clients<R: Threads + Wait + Sync>(
    rt: &R,
    alloc: Global,
    words: &str,
    answer: &mut Answer,
) {
    match begun(rt, alloc, "permanent") {
        Some((table, seat, pid)) => push_calls_of(rt, &table, seat, pid, words, answer),
        None => answer.note_no_memory(),
    }
}

fn push_calls_of<R: Threads + Wait + Sync>(
    rt: &R,
    table: &ProcTable,
    seat: HandlerSeat,
    pid: Pid,
    words: &str,
    answer: &mut Answer,
)
    requires { seat.table ≡ table.now }
{
    let (calls, holds) = first_word(words);
    let calls = calls.parse::<u32>().unwrap_or(0);
    let holds = holds.parse::<u32>().unwrap_or(0);
    let mut seat = seat;
    let mut last = table.new_pass(&mut seat);
    let one = table.new_pass(&mut seat);
    let two = table.new_pass(&mut seat);
    let (_, (one, two)) = join(
        rt,
        || hold_often(rt, table, seat, pid, holds),
        ||
            requires { (one.table ≡ table.now) × (two.table ≡ table.now) }
        { both_heard(rt, table, one, two, pid, calls) },
    );
    push_heard(one, two, answer);
    push_peek(table, &mut last, pid, answer);
}

// What two clients hear, each in a thread of its own.
fn both_heard<R: Threads + Wait + Sync>(
    rt: &R,
    table: &ProcTable,
    one: Pass,
    two: Pass,
    pid: Pid,
    calls: u32,
) -> (Heard, Heard)
    requires one { one.table ≡ table.now }
    requires two { two.table ≡ table.now }
{
    let start = Barrier::new(2);
    join(
        rt,
        || call_often(rt, table, &start, one, pid, calls),
        || call_often(rt, table, &start, two, pid, calls),
    )
}

fn push_heard(one: Heard, two: Heard, answer: &mut Answer) {
    answer.push_counted("answered ", one.answered as u64);
    answer.push_counted(" and ", two.answered as u64);
    answer.push_counted(", sum ", one.sum.saturating_add(two.sum));
    answer.push_counted(", greatest ", one.last.max(two.last) as u64);
    answer.push(if one.saw_all && two.saw_all {
        ", both saw all, "
    } else {
        ", one saw less, "
    });
}
