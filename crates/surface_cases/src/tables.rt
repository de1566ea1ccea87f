//! Tables of modules: `mod_table`.
use crate::files::push_fault;
use erl_term::Term;
use mod_table::{Old, Step, Super, Table, Worker, read_mod};
use std::alloc::Global;
use text_cases::{Answer, first_word};

/// Appends the table of a file: its module and version, and the children of a supervisor.
pub(crate) fn push_table(alloc: Global, bytes: &[u8], answer: &mut Answer) {
    match read_mod(alloc, bytes) {
        Ok(Table::Worker(worker)) => push_worker(&worker, answer),
        Ok(Table::Super(supervisor)) => push_supervisor(&supervisor, answer),
        Err(fault) => push_fault(&fault, answer),
    }
}

fn push_worker(worker: &Worker, answer: &mut Answer) {
    answer.push_after("worker ", worker.name());
    answer.push_after(" ", worker.vsn());
}

fn push_supervisor(supervisor: &Super, answer: &mut Answer) {
    answer.push_after("supervisor ", supervisor.name());
    answer.push_after(" ", supervisor.vsn());
    for child in supervisor.children() {
        answer.push_after("; ", child.id.as_str());
        answer.push_after(" ", child.module.as_str());
        answer.push(" ");
        answer.push_debug(&child.restart);
        answer.push(" ");
        answer.push_debug(&child.kind);
    }
}

/// The table of a worker. Nothing where the bytes have none.
pub(crate) fn worker_of(alloc: Global, bytes: &[u8]) -> Option<Worker> {
    match read_mod(alloc, bytes) {
        Ok(Table::Worker(worker)) => Some(worker),
        _ => None,
    }
}

/// Appends what a call answers of a worker. The text is its state, the input and the table.
pub(crate) fn push_step(alloc: Global, words: &str, answer: &mut Answer) {
    let (state, words) = first_word(words);
    let (input, table) = first_word(words);
    match worker_of(alloc, table.as_bytes()) {
        Some(worker) => push_answer(worker.step(count(state), count(input)), answer),
        None => answer.push("no worker"),
    }
}

fn push_answer(step: Step, answer: &mut Answer) {
    match step {
        Step::Next(state, reply) => {
            answer.push_counted("Next ", u64::from(state));
            answer.push_counted(" ", u64::from(reply));
        }
        Step::Ends(reply) => answer.push_counted("Ends ", u64::from(reply)),
        Step::Crashes => answer.push("Crashes"),
    }
}

fn count(word: &str) -> u32 {
    word.parse::<u32>().unwrap_or(0)
}

/// Appends the states after a change of code up from a version, and down from it, with an empty list as the extra term. The text is
/// the version, the state and the table.
pub(crate) fn push_change(alloc: Global, words: &str, answer: &mut Answer) {
    let (vsn, words) = first_word(words);
    let (state, table) = first_word(words);
    let (Ok(up), Ok(down)) = (String::from_str(alloc, vsn), String::from_str(alloc, vsn)) else {
        return answer.note_no_memory();
    };
    let extra = Term::List(Vec::new(alloc));
    match worker_of(alloc, table.as_bytes()) {
        Some(worker) => {
            push_state(worker.change(&Old::Up(up), &extra, count(state)), answer);
            push_state(
                worker.change(&Old::Down(down), &extra, count(state)),
                answer,
            );
        }
        None => answer.push("no worker"),
    }
}

fn push_state(state: Option<u32>, answer: &mut Answer) {
    match state {
        Some(state) => answer.push_counted("state ", u64::from(state)),
        None => answer.push("no row"),
    }
    answer.push("; ");
}
