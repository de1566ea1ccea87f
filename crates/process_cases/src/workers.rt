//! Workers of processes, and what they make of notes.
ghost use Rattle.std.specs.Prelude.{◌≡◌, []};

use crate::clients::{push_peek, push_tried};
use crate::processes::begun;
use proc_table::{HandlerSeat, Pid, ProcTable};
use proc_workers::{
    EndCause, Ended, FloodCounts, Inbox, Job, NoGate, Note, Sender, flood, mailbox, work,
};
use std::alloc::Global;
use std::sync::Wait;
use std::thread::Threads;
use text_cases::{Answer, first_word};

/// Appends what a worker makes of notes, which stand in a text with `; ` between them, at most 64. Its senders are gone before
/// it begins.
///
/// - `job INPUT`, `second INPUT`: a call of its process, which the first of its senders adds, or another one. The number of a job
///   is that of the note. `other INPUT`: a call of another process.
/// - `suspend`, `resume`, `stop`.
pub(crate) fn push_worker<R: Wait>(rt: &R, alloc: Global, words: &str, answer: &mut Answer) {
    match begun(rt, alloc, "temporary") {
        Some((table, mut seat, pid)) => push_work(rt, alloc, &table, &mut seat, pid, words, answer),
        None => answer.note_no_memory(),
    }
}

fn push_work<R: Wait>(
    rt: &R,
    alloc: Global,
    table: &ProcTable,
    seat: &mut HandlerSeat,
    pid: Pid,
    words: &str,
    answer: &mut Answer,
)
    requires { seat.old.table ≡ table.now }
{
    let Some(inbox) = with_notes(rt, alloc, pid, words) else {
        return answer.note_no_memory();
    };
    let pass = table.new_pass(seat);
    let ended = work(rt, alloc, table, pass, pid, inbox, &NoGate);
    push_answers(&ended, answer);
    push_ended(table, pid, ended, answer);
}

// A mailbox with these notes, whose senders are gone.
fn with_notes<R: Wait>(rt: &R, alloc: Global, pid: Pid, words: &str) -> Option<Inbox> {
    let (mut first, inbox) = mailbox(alloc).ok()?;
    let mut second = first.second(alloc).ok()?;
    send_notes(rt, &mut first, &mut second, pid, words)?;
    Some(inbox)
}

// Each note by its sender, up to the first that is handed back.
fn send_notes<R: Wait>(
    rt: &R,
    first: &mut Sender,
    second: &mut Sender,
    pid: Pid,
    words: &str,
) -> Option<()> {
    let mut number = 0u32;
    for words in words.split("; ") {
        number = number.saturating_add(1);
        let (word, input) = first_word(words);
        let note = note_of(number, pid, word, input.parse::<u32>().unwrap_or(0));
        if word == "second" {
            second.send(rt, note).ok()?;
        } else {
            first.send(rt, note).ok()?;
        }
    }
    Some(())
}

fn note_of(number: u32, pid: Pid, word: &str, input: u32) -> Note {
    match word {
        "suspend" => Note::Suspend,
        "resume" => Note::Resume,
        "stop" => Note::Stop,
        "other" => Note::Job(Job {
            number,
            pid: next_round(pid),
            input,
        }),
        _ => Note::Job(Job { number, pid, input }),
    }
}

// The process that would begin in this slot next.
fn next_round(pid: Pid) -> Pid {
    Pid::new(pid.slot, pid.round.saturating_add(1)).unwrap_or(pid)
}

fn push_answers(ended: &Ended, answer: &mut Answer) {
    for done in ended.answers.as_slice() {
        answer.push_counted("", done.number as u64);
        answer.push(" ");
        push_tried(done.tried, answer);
    }
}

// Appends the jobs that are left, why the worker ended, and what its pass peeks then.
fn push_ended(table: &ProcTable, pid: Pid, ended: Ended, answer: &mut Answer)
    requires { ended.pass.table ≡ table.now }
{
    answer.push("left");
    for job in ended.left.as_slice() {
        answer.push_counted(" ", job.number as u64);
    }
    answer.push(match ended.cause {
        EndCause::Stopped => ", stopped, ",
        EndCause::Closed => ", closed, ",
        EndCause::NoMemory => ", no memory, ",
    });
    let mut pass = ended.pass;
    push_peek(table, &mut pass, pid, answer);
}

/// Appends how often each outcome comes of calls with one input that two threads send to a worker, and what is peeked
/// then. The text is how the process begins, how many calls they are, and the input.
pub(crate) fn push_flood<R: Threads + Wait + Sync>(
    rt: &R,
    alloc: Global,
    words: &str,
    answer: &mut Answer,
) {
    let (how, words) = first_word(words);
    match begun(rt, alloc, how) {
        Some((table, mut seat, pid)) => {
            push_flood_of(rt, alloc, &table, &mut seat, pid, words, answer);
        }
        None => answer.note_no_memory(),
    }
}

fn push_flood_of<R: Threads + Wait + Sync>(
    rt: &R,
    alloc: Global,
    table: &ProcTable,
    seat: &mut HandlerSeat,
    pid: Pid,
    words: &str,
    answer: &mut Answer,
)
    requires table { seat.old.table ≡ table.now }
    requires alone { seat.old.view.lent ≡ [] }
{
    let (times, input) = first_word(words);
    let times = times.parse::<u32>().unwrap_or(0);
    let input = input.parse::<u32>().unwrap_or(0);
    match flood(rt, alloc, table, seat, pid, input, times) {
        Ok(counts) => push_counts(counts, answer),
        Err(_) => return answer.note_no_memory(),
    }
    let mut pass = table.new_pass(seat);
    push_peek(table, &mut pass, pid, answer);
}

fn push_counts(counts: FloodCounts, answer: &mut Answer) {
    answer.push_counted("done ", counts.done as u64);
    answer.push_counted(" crashed ", counts.crashed as u64);
    answer.push_counted(" ended ", counts.ended as u64);
    answer.push_counted(" down ", counts.down as u64);
    answer.push(", ");
}

/// Appends what a send to a mailbox answers whose inbox is gone.
pub(crate) fn push_closed<R: Wait>(rt: &R, alloc: Global, answer: &mut Answer) {
    let Ok((mut first, inbox)) = mailbox(alloc) else {
        return answer.note_no_memory();
    };
    drop(inbox);
    match first.send(rt, Note::Stop) {
        Err((Note::Stop, closed)) => answer.push_shown(&closed),
        Err(_) => answer.push("another note"),
        Ok(()) => answer.push("sent"),
    }
}
