//! What a process answers to calls that the handler makes itself.
ghost use Rattle.std.specs.Prelude.{◌≡◌, []};

use crate::clients::{push_calls, push_tried};
use crate::processes::begun;
use proc_table::{HandlerSeat, Pid, ProcTable};
use std::alloc::Global;
use std::sync::Wait;
use text_cases::{Answer, first_word};

/// Appends what a process answers to the handler of a new table, at which nobody else sits, and what a client sees then that
/// calls it once more. The text is how the process begins, and the handler's inputs.
pub(crate) fn push_own_calls<R: Wait>(rt: &R, alloc: Global, words: &str, answer: &mut Answer) {
    let (how, inputs) = first_word(words);
    match begun(rt, alloc, how) {
        Some((table, mut seat, pid)) => {
            push_calls_alone(rt, &table, &mut seat, pid, inputs, answer);
        }
        None => answer.note_no_memory(),
    }
}

fn push_calls_alone<R: Wait>(
    rt: &R,
    table: &ProcTable,
    seat: &mut HandlerSeat,
    pid: Pid,
    inputs: &str,
    answer: &mut Answer,
)
    requires table { seat.old.table ≡ table.now }
    requires alone { seat.old.view.lent ≡ [] }
{
    for input in inputs.split(' ') {
        let input = input.parse::<u32>().unwrap_or(0);
        push_tried(table.call_alone(rt, seat, pid, input), answer);
    }
    let mut pass = table.new_pass(seat);
    answer.push("then ");
    push_calls(table, &mut pass, pid, "1", answer);
    table.take_back(seat, pass);
}
