//! Steps of the handler and of clients at a table, in one thread.
ghost use Rattle.std.specs.Prelude.{◌≡◌};

use crate::clients::{push_calls, push_held, push_last_round, push_meeting};
use crate::processes::{begin, push_pid};
use proc_table::{HandlerSeat, Pid, ProcTable};
use std::alloc::Global;
use std::sync::Wait;
use text_cases::{Answer, first_word};

/// Appends what steps at a new table answer, with `; ` between them as between the steps. A process is named by its slot and its
/// round.
///
/// - `begin SLOT`, `begin SLOT temporary`: a process begins in the slot. `begin lowest`: in the lowest in which one can. Its name
///   is reported, or `none` where none begins.
/// - `free`: the name that a process would have in the lowest slot. `give_up SLOT`: nothing stands in the slot any more.
/// - `last_round SLOT`: whether one begins in a slot whose last round was used.
/// - `calls SLOT ROUND INPUT..`, `meet SLOT ROUND`, `held SLOT ROUND`: what clients see, as [`push_calls`], [`push_meeting`] and
///   [`push_held`] report.
pub(crate) fn follow_steps<R: Wait>(rt: &R, alloc: Global, words: &str, answer: &mut Answer) {
    match ProcTable::new(alloc) {
        Ok((table, mut seat)) => take_steps(rt, alloc, &table, &mut seat, words, answer),
        Err(_) => answer.note_no_memory(),
    }
}

fn take_steps<R: Wait>(
    rt: &R,
    alloc: Global,
    table: &ProcTable,
    seat: &mut HandlerSeat,
    words: &str,
    answer: &mut Answer,
)
    requires { seat.old.table ≡ table.now }
{
    for step in words.split("; ") {
        if !answer.text.is_empty() {
            answer.push("; ");
        }
        take_step(rt, alloc, table, seat, step, answer);
    }
}

/// A step of those that [`follow_steps`] reports.
pub(crate) fn take_step<R: Wait>(
    rt: &R,
    alloc: Global,
    table: &ProcTable,
    seat: &mut HandlerSeat,
    step: &str,
    answer: &mut Answer,
)
    requires { seat.old.table ≡ table.now }
    ensures { seat.new.table ≡ seat.old.table }
{
    let (word, rest) = first_word(step);
    let (slot, rest) = first_word(rest);
    let (round, inputs) = first_word(rest);
    let pid = Pid::new(
        slot.parse::<usize>().unwrap_or(usize::MAX),
        round.parse::<u32>().unwrap_or(0),
    );
    match word {
        "begin" => {
            let begun = begin(rt, alloc, table, seat, pid, round, answer);
            push_pid(begun, answer);
        }
        "free" => push_pid(seat.lowest_free(), answer),
        _ => match pid {
            Some(pid) => step_of(rt, alloc, table, seat, word, pid, inputs, answer),
            None => answer.push("no such slot"),
        },
    }
}

// A step that names a slot, with a client that sits down before it.
fn step_of<R: Wait>(
    rt: &R,
    alloc: Global,
    table: &ProcTable,
    seat: &mut HandlerSeat,
    word: &str,
    pid: Pid,
    inputs: &str,
    answer: &mut Answer,
)
    requires { seat.old.table ≡ table.now }
    ensures { seat.new.table ≡ seat.old.table }
{
    let mut pass = table.new_pass(seat);
    match word {
        "give_up" => {
            table.give_up(rt, seat, pid);
            answer.push("ok");
        }
        "last_round" => push_last_round(rt, alloc, table, seat, pid, answer),
        "calls" => push_calls(table, &mut pass, pid, inputs, answer),
        "meet" => push_meeting(table, seat, pid, answer),
        "held" => push_held(rt, table, seat, &mut pass, pid, answer),
        _ => answer.push("no such step"),
    }
    table.take_back(seat, pass);
}
