//! The answer to a case.
use crate::gates::push_gated;
use crate::own_calls::push_own_calls;
use crate::steps::follow_steps;
use crate::threads::push_clients;
use crate::trees::follow_tree;
use crate::workers::{push_closed, push_flood, push_worker};
use std::alloc::{AllocError, Global};
use std::sync::Wait;
use std::thread::Threads;
use text_cases::Answer;

/// The answer in one of eight modes.
///
/// `steps`: what steps at a new table answer, as in [`follow_steps`]. `tree`: the same with applications that are started and
/// stopped, as in [`follow_tree`]. `clients`: what two clients and the handler see in threads of their own, as in
/// [`push_clients`]. `alone`: what a process answers to calls that the handler makes itself, as in [`push_own_calls`].
///
/// `worker`: what a worker makes of notes, as in [`push_worker`]. `flood`: what comes of many jobs of two threads, as in
/// [`push_flood`]. `closed`: what a send answers whose inbox is gone, as in [`push_closed`]. `gated`: whether two workers run
/// beside each other, as in [`push_gated`].
pub(crate) fn answer<R: Threads + Wait + Sync>(
    rt: &R,
    alloc: Global,
    mode: &str,
    text: &[u8],
) -> Result<String, AllocError> {
    let mut answer = Answer::new(alloc);
    let words = str::from_utf8(text).unwrap_or("");
    match mode {
        "steps" => follow_steps(rt, alloc, words, &mut answer),
        "tree" => follow_tree(rt, alloc, words, &mut answer),
        "clients" => push_clients(rt, alloc, words, &mut answer),
        "alone" => push_own_calls(rt, alloc, words, &mut answer),
        "worker" => push_worker(rt, alloc, words, &mut answer),
        "flood" => push_flood(rt, alloc, words, &mut answer),
        "closed" => push_closed(rt, alloc, &mut answer),
        "gated" => push_gated(rt, alloc, &mut answer),
        _ => answer.push("no such mode"),
    }
    answer.finish()
}
