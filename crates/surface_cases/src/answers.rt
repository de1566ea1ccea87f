//! The answer to a case.
use crate::appups::push_entry;
use crate::disks::{push_disk, push_failing, push_images};
use crate::files::{push_app, push_rel};
use crate::handlers::push_commands;
use crate::lists::push_events;
use crate::processes::push_processes;
use crate::relups::{push_check, push_found, push_made, push_relup};
use crate::sessions::{push_options, push_session};
use crate::stores::{push_start, push_store};
use crate::tables::{push_change, push_step, push_table};
use crate::terms::push_terms;
use crate::trees::push_applications;
use crate::workers::push_worker;
use std::alloc::{AllocError, Global};
use std::sync::Wait;
use std::thread::Threads;
use text_cases::Answer;

/// The answer in one of these modes, whose functions say what their texts are.
///
/// `disk`, `fail`, `stop`: disks. `store`, `start`: a store and its start record. `terms`: terms. `rel`, `app`: files of a
/// release. `table`, `step`, `change`: tables of modules. `entry`: appups. `relup`, `check`, `find`, `make`: relups. `list`: the
/// list of releases. `processes`: processes. `applications`: supervision. `worker`: workers. `commands`: a node's commands and scripts.
/// `session`, `options`: the program.
pub(crate) fn answer<R: Threads + Wait + Sync>(
    rt: &R,
    alloc: Global,
    mode: &str,
    text: &[u8],
) -> Result<String, AllocError> {
    let mut answer = Answer::new(alloc);
    let words = str::from_utf8(text).unwrap_or("");
    match mode {
        "disk" => push_disk(alloc, text, &mut answer),
        "fail" => push_failing(alloc, words, &mut answer),
        "stop" => push_images(alloc, words, &mut answer),
        "store" => push_store(alloc, words, &mut answer),
        "start" => push_start(alloc, words, &mut answer),
        "terms" => push_terms(alloc, text, &mut answer),
        _ => answer_files(rt, alloc, mode, words, &mut answer),
    }
    answer.finish()
}

// The answer in a mode of files, or of what they describe.
fn answer_files<R: Threads + Wait + Sync>(
    rt: &R,
    alloc: Global,
    mode: &str,
    words: &str,
    answer: &mut Answer,
) {
    match mode {
        "rel" => push_rel(alloc, words.as_bytes(), answer),
        "app" => push_app(alloc, words.as_bytes(), answer),
        "table" => push_table(alloc, words.as_bytes(), answer),
        "step" => push_step(alloc, words, answer),
        "change" => push_change(alloc, words, answer),
        "entry" => push_entry(alloc, words, answer),
        "relup" => push_relup(alloc, words.as_bytes(), answer),
        "check" => push_check(alloc, words.as_bytes(), answer),
        "find" => push_found(alloc, words, answer),
        "make" => push_made(alloc, words, answer),
        "list" => push_events(alloc, words, answer),
        _ => answer_node(rt, alloc, mode, words, answer),
    }
}

// The answer in a mode of processes, or of a node.
fn answer_node<R: Threads + Wait + Sync>(
    rt: &R,
    alloc: Global,
    mode: &str,
    words: &str,
    answer: &mut Answer,
) {
    match mode {
        "processes" => push_processes(rt, alloc, words, answer),
        "applications" => push_applications(rt, alloc, words, answer),
        "worker" => push_worker(rt, alloc, answer),
        "commands" => push_commands(rt, alloc, words, answer),
        "session" => push_session(rt, alloc, words, answer),
        "options" => push_options(alloc, words, answer),
        _ => answer.push("no such mode"),
    }
}
