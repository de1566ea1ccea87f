//! Tables of modules.
use erl_term::{Term, TermFault, read_record};
use mod_table::{
    Child, Old, Step, Super, Table, Ticks, Worker, read_mod, read_mod_file, table_of_term,
};
use rel_files::FileFault;
use std::alloc::Global;
use text_cases::{Answer, enclosed, first_word};

/// Reads the file's term again.
pub(crate) fn of_the_term(alloc: Global, file: &[u8]) -> Result<Table, FileFault> {
    let read = read_mod_file(alloc, file)?;
    table_of_term(alloc, &read.term, 0)
}

/// Appends the table, or the fault.
pub(crate) fn push_read(read: &Result<Table, FileFault>, answer: &mut Answer) {
    match read {
        Ok(Table::Worker(worker)) => push_worker(worker, answer),
        Ok(Table::Super(supervisor)) => push_super(supervisor, answer),
        Err(fault) => push_fault(fault, answer),
    }
}

fn push_fault(fault: &FileFault, answer: &mut Answer) {
    answer.push_shown(fault);
    if let FileFault::Duplicate(id) = fault {
        answer.push_after(" ", id);
    }
}

fn push_worker(worker: &Worker, answer: &mut Answer) {
    answer.push_after("worker ", worker.name());
    answer.push_after(" ", worker.vsn());
    answer.push_counted(" ", worker.first() as u64);
}

fn push_super(supervisor: &Super, answer: &mut Answer) {
    answer.push_after("supervisor ", supervisor.name());
    answer.push_after(" ", supervisor.vsn());
    for child in supervisor.children() {
        push_child(child, answer);
    }
}

fn push_child(child: &Child, answer: &mut Answer) {
    answer.push_after("; ", &child.id);
    answer.push_after(" ", &child.module);
    answer.push(" ");
    answer.push_debug(&child.restart);
    answer.push(" ");
    answer.push_debug(&child.kind);
}

// The number of a word, and 0 of a word that is none.
fn state_of(word: &str) -> u32 {
    word.parse::<u32>().unwrap_or(0)
}

// The worker of a file, and a copy of it. A supervisor has another shape.
fn workers(alloc: Global, file: &str) -> Result<(Worker, Worker), FileFault> {
    match read_mod(alloc, file.as_bytes())? {
        Table::Worker(worker) => {
            let copied = worker.copy(alloc)?;
            Ok((worker, copied))
        }
        Table::Super(_) => Err(FileFault::BadShape(0)),
    }
}

/// Appends what comes of a call in this state, with this input.
pub(crate) fn push_step(alloc: Global, text: &str, answer: &mut Answer) {
    let (state, rest) = first_word(text);
    let (input, file) = first_word(rest);
    let (state, input) = (state_of(state), state_of(input));
    match workers(alloc, file) {
        Ok((worker, copied)) => {
            let step = worker.step(state, input);
            push_agreed(copied.step(state, input) == step, answer);
            push_step_text(step, answer);
        }
        Err(fault) => push_fault(&fault, answer),
    }
}

/// Appends how many keys were compared at such a call.
pub(crate) fn push_ticks(alloc: Global, text: &str, answer: &mut Answer) {
    let (state, rest) = first_word(text);
    let (input, file) = first_word(rest);
    match workers(alloc, file) {
        Ok((_, copied)) => {
            let mut ticks = Ticks::new();
            copied.step_counted(state_of(state), state_of(input), &mut ticks);
            answer.push_number(ticks.count());
        }
        Err(fault) => push_fault(&fault, answer),
    }
}

// Nothing where the copy of a worker answers as the worker.
fn push_agreed(is_same: bool, answer: &mut Answer) {
    if !is_same {
        answer.push("the copy differs from ");
    }
}

fn push_step_text(step: Step, answer: &mut Answer) {
    match step {
        Step::Next(state, reply) => {
            answer.push_counted("Next ", state as u64);
            answer.push_counted(" ", reply as u64);
        }
        Step::Ends(reply) => answer.push_counted("Ends ", reply as u64),
        Step::Crashes => answer.push("Crashes"),
    }
}

// The term of a word, to which the dot is added.
fn term_of(alloc: Global, text: &str) -> Result<Term, TermFault> {
    let bytes = enclosed(alloc, b"", text.as_bytes(), b".")?;
    read_record(alloc, &bytes)
}

/// Appends the state after a change of code, or a fault.
pub(crate) fn push_change(alloc: Global, text: &str, answer: &mut Answer) {
    match changed(alloc, text, answer) {
        Ok(Some(state)) => answer.push_number(state as u64),
        Ok(None) => answer.push("no change"),
        Err(fault) => push_fault(&fault, answer),
    }
}

fn changed(alloc: Global, text: &str, answer: &mut Answer) -> Result<Option<u32>, FileFault> {
    let (direction, rest) = first_word(text);
    let (vsn, rest) = first_word(rest);
    let (extra, rest) = first_word(rest);
    let (state, file) = first_word(rest);
    let vsn = String::from_str(alloc, vsn)?;
    let old = if direction == "up" {
        Old::Up(vsn)
    } else {
        Old::Down(vsn)
    };
    let extra = term_of(alloc, extra)?;
    let (worker, copied) = workers(alloc, file)?;
    let next = worker.change(&old, &extra, state_of(state));
    push_agreed(copied.change(&old, &extra, state_of(state)) == next, answer);
    Ok(next)
}
