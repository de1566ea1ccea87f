//! Processes, and who calls and holds them: `proc_table`.
ghost use Rattle.std.specs.Prelude.{◌≡◌, IfSome, true};
ghost use Rattle.proc_history.specs.Histories.{IsLegal, replay};
ghost use Rattle.proc_table.specs.Views.{is_out, seen};

use crate::tables::worker_of;
use mod_table::Restart;
use proc_table::{
    Beginning, Entry, HandlerSeat, Held, Name, Now, Pass, Peeked, Pid, ProcTable, Standing, Tried,
    Value,
};
use std::alloc::Global;
use std::sync::Wait;
use text_cases::{Answer, first_word};

/// Appends what clients and the handler see of a process. The text is the input of its calls, and its table.
pub(crate) fn push_processes<R: Wait>(rt: &R, alloc: Global, words: &str, answer: &mut Answer) {
    let (input, table) = first_word(words);
    let input = input.parse::<u32>().unwrap_or(0);
    match begun(rt, alloc, table) {
        Some((table, mut seat, pid)) => match Pid::new(pid.slot, pid.round) {
            Some(pid) => {
                push_met(rt, &table, &mut seat, pid, input, answer);
                push_held(rt, &table, &mut seat, pid, answer);
            }
            None => answer.push("no such slot"),
        },
        None => answer.note_no_memory(),
    }
}

/// A new table, and a process with this table of a worker that begins in it.
pub(crate) fn begun<R: Wait>(
    rt: &R,
    alloc: Global,
    worker: &str,
) -> Option<(ProcTable, HandlerSeat, Pid)>
    ensures { IfSome result (λ begun. begun.1.table ≡ begun.0) }
{
    let (table, mut seat) = ProcTable::new(alloc).ok()?;
    let begins = Beginning {
        app: name(alloc, "ch_app")?,
        id: name(alloc, "ch3")?,
        restart: Restart::Permanent,
        table: worker_of(alloc, worker.as_bytes())?,
    };
    let pid = table.begin_lowest(rt, &mut seat, begins).ok()?;
    Some((table, seat, pid))
}

fn name(alloc: Global, text: &str) -> Option<Name> {
    Some(Name::new(String::from_str(alloc, text).ok()?))
}

// Two clients: one calls, the other one meets it, and peeks and calls.
fn push_met<R: Wait>(
    rt: &R,
    table: &ProcTable,
    seat: &mut HandlerSeat,
    pid: Pid,
    input: u32,
    answer: &mut Answer,
)
    requires { seat.old.table ≡ table.now }
    ensures { seat.new.table ≡ seat.old.table }
{
    let mut one = table.new_pass(seat);
    let two = table.new_pass(seat);
    answer.push("try_call ");
    push_tried(table.try_call(&mut one, pid, input), answer);
    let mut met = table.meet(two, one);
    answer.push(", try_peek ");
    push_peeked(table.try_peek(&mut met, pid), answer);
    answer.push(", call ");
    push_tried(table.call(rt, &mut met, pid, input), answer);
    table.take_back(seat, met);
}

/// Appends what a call was answered.
pub(crate) fn push_tried(tried: Tried, answer: &mut Answer) {
    match tried {
        Tried::Done(reply) => answer.push_counted("Done ", u64::from(reply)),
        Tried::Crashed => answer.push("Crashed"),
        Tried::Ended(reply) => answer.push_counted("Ended ", u64::from(reply)),
        Tried::Busy => answer.push("Busy"),
        Tried::Held => answer.push("Held"),
        Tried::Down => answer.push("Down"),
    }
}

fn push_peeked(peeked: Peeked, answer: &mut Answer) {
    match peeked {
        Peeked::Seen(state) => answer.push_counted("Seen ", u64::from(state)),
        Peeked::Busy => answer.push("Busy"),
        Peeked::Held => answer.push("Held"),
        Peeked::Down => answer.push("Down"),
    }
}

// The handler holds the process, while a client doesn't get it, and gives it back. Then it holds it again and gives it up.
fn push_held<R: Wait>(
    rt: &R,
    table: &ProcTable,
    seat: &mut HandlerSeat,
    pid: Pid,
    answer: &mut Answer,
)
    requires { seat.old.table ≡ table.now }
    ensures { seat.new.table ≡ seat.old.table }
{
    let mut pass = table.new_pass(seat);
    match table.try_hold(seat, pid) {
        Some(held) => push_given_back(table, seat, &mut pass, pid, held, answer),
        None => answer.push(", try_hold None"),
    }
    give_up(rt, table, seat, pid);
    answer.push(", try_peek ");
    push_peeked(table.try_peek(&mut pass, pid), answer);
    table.take_back(seat, pass);
}

fn push_given_back(
    table: &ProcTable,
    seat: &mut HandlerSeat,
    pass: &mut Pass,
    pid: Pid,
    held: Held,
    answer: &mut Answer,
)
    requires seat { seat.old.table ≡ table.now }
    requires pass { pass.old.table ≡ table.now }
    requires out { is_out seat.old.view held.slot ≡ true }
    requires legal { IsLegal (seen seat.old.view held.slot) }
    requires value { held.value ≡ replay (seen seat.old.view held.slot) }
    ensures seat { seat.new.table ≡ seat.old.table }
    ensures pass { pass.new.table ≡ pass.old.table }
{
    let mut held = held;
    push_value(held.value(), answer);
    answer.push(", try_call ");
    push_tried(table.try_call(pass, pid, 1), answer);
    let value = held.replace(Value::nothing());
    held.set(value);
    table.release(seat, held, &[]);
}

fn give_up<R: Wait>(rt: &R, table: &ProcTable, seat: &mut HandlerSeat, pid: Pid)
    requires { seat.old.table ≡ table.now }
    ensures { seat.new.table ≡ seat.old.table }
{
    let mut held = table.hold(rt, seat, pid);
    held.give_up();
    table.release(seat, held, &[Entry::GivenUp]);
}

fn push_value(value: &Value, answer: &mut Answer) {
    answer.push_counted(", value ", u64::from(value.round));
    if let Some(now) = &value.now {
        push_now(now, answer);
    }
}

fn push_now(now: &Now, answer: &mut Answer) {
    answer.push_after(" ", now.app.as_str());
    answer.push_after(" ", now.id.as_str());
    answer.push(" ");
    answer.push_debug(&now.restart);
    answer.push_after(" ", now.table.name());
    answer.push_counted(" ", u64::from(now.state));
    answer.push(match now.standing {
        Standing::Up => " up",
        Standing::Down => " down",
        Standing::Stopped => " stopped",
    });
}
