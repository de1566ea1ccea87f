//! What clients see of a process, and the handler of one that it holds.
ghost use Rattle.std.specs.Prelude.{◌≡◌};

use crate::processes::{beginning, push_pid};
use proc_history::Value;
use proc_table::{HandlerSeat, Pass, Peeked, Pid, ProcTable, Tried};
use std::alloc::Global;
use std::sync::Wait;
use text_cases::Answer;

/// Appends what calls of a process answer to a client, and what it peeks then.
pub(crate) fn push_calls(
    table: &ProcTable,
    pass: &mut Pass,
    pid: Pid,
    inputs: &str,
    answer: &mut Answer,
)
    requires { pass.old.table ≡ table.now }
    ensures { pass.new.table ≡ pass.old.table }
{
    for input in inputs.split(' ') {
        push_call(table, pass, pid, input.parse::<u32>().unwrap_or(0), answer);
    }
    push_peek(table, pass, pid, answer);
}

/// Appends what a call answers to a client, and what it peeks once another client met it that sat down before the call.
pub(crate) fn push_meeting(table: &ProcTable, seat: &mut HandlerSeat, pid: Pid, answer: &mut Answer)
    requires { seat.old.table ≡ table.now }
    ensures { seat.new.table ≡ seat.old.table }
{
    let mut one = table.new_pass(seat);
    let two = table.new_pass(seat);
    push_call(table, &mut one, pid, 1, answer);
    let mut met = table.meet(two, one);
    push_peek(table, &mut met, pid, answer);
    table.take_back(seat, met);
}

/// Appends what a client sees of a process that the handler holds, the lowest slot in which one can begin meanwhile, and what the
/// client sees once the handler lets the process go.
pub(crate) fn push_held<R: Wait>(
    rt: &R,
    table: &ProcTable,
    seat: &mut HandlerSeat,
    pass: &mut Pass,
    pid: Pid,
    answer: &mut Answer,
)
    requires seat { seat.old.table ≡ table.now }
    requires pass { pass.old.table ≡ table.now }
    ensures seat { seat.new.table ≡ seat.old.table }
    ensures pass { pass.new.table ≡ pass.old.table }
{
    let held = table.hold(rt, seat, pid);
    push_calls(table, pass, pid, "1", answer);
    answer.push(", free ");
    push_pid(seat.lowest_free(), answer);
    table.release(seat, held, &[]);
    answer.push(", then ");
    push_calls(table, pass, pid, "1", answer);
}

/// Appends whether a process begins in a slot whose last round was used.
pub(crate) fn push_last_round<R: Wait>(
    rt: &R,
    alloc: Global,
    table: &ProcTable,
    seat: &mut HandlerSeat,
    pid: Pid,
    answer: &mut Answer,
)
    requires { seat.old.table ≡ table.now }
    ensures { seat.new.table ≡ seat.old.table }
{
    let Some(begins) = beginning(alloc, "permanent") else {
        answer.note_no_memory();
        return;
    };
    let mut held = table.hold(rt, seat, pid);
    let old = held.replace(Value {
        round: u32::MAX,
        now: None,
    });
    answer.push_is_ok(held.begin(begins).is_ok());
    held.set(old);
    table.release(seat, held, &[]);
}

// A call, and what it answers.
fn push_call(table: &ProcTable, pass: &mut Pass, pid: Pid, input: u32, answer: &mut Answer)
    requires { pass.old.table ≡ table.now }
    ensures { pass.new.table ≡ pass.old.table }
{
    push_tried(table.try_call(pass, pid, input), answer);
}

/// Appends what a call was answered.
pub(crate) fn push_tried(tried: Tried, answer: &mut Answer) {
    match tried {
        Tried::Done(reply) => answer.push_counted("done ", reply as u64),
        Tried::Crashed => answer.push("crashed"),
        Tried::Ended(reply) => answer.push_counted("ended ", reply as u64),
        Tried::Busy => answer.push("busy"),
        Tried::Held => answer.push("held"),
        Tried::Down => answer.push("down"),
    }
    answer.push(", ");
}

/// A peek, and what it shows.
pub(crate) fn push_peek(table: &ProcTable, pass: &mut Pass, pid: Pid, answer: &mut Answer)
    requires { pass.old.table ≡ table.now }
    ensures { pass.new.table ≡ pass.old.table }
{
    match table.try_peek(pass, pid) {
        Peeked::Seen(state) => answer.push_counted("seen ", state as u64),
        Peeked::Busy => answer.push("busy"),
        Peeked::Held => answer.push("held"),
        Peeked::Down => answer.push("down"),
    }
}
