//! Steps on an open store.
ghost use Rattle.rel_store.specs.State.{IsSoundStore};

use rel_disk::Disk;
use rel_store::{Store, StoreError};
use start_record::{Start, StartError, read_start, write_start};
use std::alloc::{AllocError, Global};
use std::fmt::Debug;
use text_cases::{Answer, first_word, number};

/// Appends how many records an opened store has, and what these steps answer, each after `; `. They
/// are parted by `; `, and are the calls of a store and of a start record:
///
/// - `append BODY`, `compact BODY`, `reserve N`, `fits N`, `write_slot TEXT`, `write_start ERTS VSN`, `read_start`.
///   Of a TEXT as much is written as has room.
/// - `read_slot`: the first nine bytes of the start slot are reported.
/// - `format`: the store's format. `to_format_2`.
/// - `records`: the bodies of the records. `rooms`: whether each has room for three bytes at most.
pub(crate) fn follow_steps<D: Disk>(
    alloc: Global,
    store: &mut Store<D>,
    steps: &str,
    answer: &mut Answer,
)
    requires { IsSoundStore D.seen D.may_leave store.old }
{
    answer.push_number(store.records().len() as u64);
    if !steps.is_empty() {
        for step in steps.split("; ") {
            answer.push("; ");
            take_step(alloc, store, step, answer);
        }
    }
}

fn take_step<D: Disk>(alloc: Global, store: &mut Store<D>, step: &str, answer: &mut Answer)
    requires { IsSoundStore D.seen D.may_leave store.old }
    ensures { IsSoundStore D.seen D.may_leave store.new }
{
    let (word, rest) = first_word(step);
    match word {
        "append" => push_done(append(alloc, store, rest), answer),
        "compact" => push_done(compact(alloc, store, rest), answer),
        "reserve" => push_done(store.reserve(alloc, number(rest)), answer),
        "write_slot" => {
            let start = &rest.as_bytes()[..rest.len().min(127)];
            push_done(store.write_slot(start), answer);
        }
        "read_slot" => read_slot(store, answer),
        "write_start" => push_done(write_versions(alloc, store, rest), answer),
        "read_start" => push_start_read(alloc, store, answer),
        "to_format_2" => push_done(store.to_format_2(), answer),
        _ => report(store, word, number(rest), answer),
    }
}

// What doesn't change the store.
fn report<D: Disk>(store: &Store<D>, word: &str, len: usize, answer: &mut Answer) {
    match word {
        "fits" => answer.push(if store.fits(len) { "fits" } else { "too long" }),
        "records" | "rooms" => push_records(store.records(), word, answer),
        "format" => answer.push_number(u64::from(store.format())),
        _ => answer.push("no such step"),
    }
}

/// Appends what a call answers.
pub(crate) fn push_done<E: Debug + Drop>(done: Result<(), E>, answer: &mut Answer) {
    match done {
        Ok(()) => answer.push("ok"),
        Err(error) => answer.push_debug(&error),
    }
}

/// The body of a record: `dots N` stands for N dots.
pub(crate) fn body_of(alloc: Global, text: &str) -> Result<Vec<u8>, AllocError> {
    match text.strip_prefix("dots ") {
        Some(count) => vec![in alloc; b'.'; number(count)],
        None => Vec::from_slice(alloc, text.as_bytes()),
    }
}

fn append<D: Disk>(alloc: Global, store: &mut Store<D>, body: &str) -> Result<(), StoreError>
    requires { IsSoundStore D.seen D.may_leave store.old }
    ensures { IsSoundStore D.seen D.may_leave store.new }
{
    let body = body_of(alloc, body)?;
    store.append(alloc, &body)
}

fn compact<D: Disk>(alloc: Global, store: &mut Store<D>, body: &str) -> Result<(), StoreError>
    requires { IsSoundStore D.seen D.may_leave store.old }
    ensures { IsSoundStore D.seen D.may_leave store.new }
{
    let image = body_of(alloc, body)?;
    store.compact(alloc, &image)
}

fn read_slot<D: Disk>(store: &mut Store<D>, answer: &mut Answer)
    requires { IsSoundStore D.seen D.may_leave store.old }
    ensures { IsSoundStore D.seen D.may_leave store.new }
{
    let mut slot = [9; 128];
    match store.read_slot(&mut slot) {
        Ok(()) => answer.push_bytes(&slot[..9]),
        Err(error) => answer.push_debug(&error),
    }
}

// Writes the start of these two versions, with a blank between them.
fn write_versions<D: Disk>(
    alloc: Global,
    store: &mut Store<D>,
    versions: &str,
) -> Result<(), StartError>
    requires { IsSoundStore D.seen D.may_leave store.old }
    ensures { IsSoundStore D.seen D.may_leave store.new }
{
    let (erts, vsn) = first_word(versions);
    let start = Start {
        erts: String::from_str(alloc, erts)?,
        vsn: String::from_str(alloc, vsn)?,
    };
    write_start(store, &start)
}

fn push_start_read<D: Disk>(alloc: Global, store: &mut Store<D>, answer: &mut Answer)
    requires { IsSoundStore D.seen D.may_leave store.old }
    ensures { IsSoundStore D.seen D.may_leave store.new }
{
    match read_start(alloc, store) {
        Ok(start) => push_start(&start, answer),
        Err(error) => answer.push_debug(&error),
    }
}

/// Appends the two versions of a start.
pub(crate) fn push_start(start: &Start, answer: &mut Answer) {
    answer.push_after(start.erts.as_str(), " ");
    answer.push(start.vsn.as_str());
}

// Appends the bodies of records, or with `rooms` whether each has room for three bytes at most.
fn push_records(records: &[Vec<u8>], word: &str, answer: &mut Answer) {
    for (i, record) in records.iter().enumerate() {
        if i > 0 {
            answer.push(" ");
        }
        match word {
            "records" => answer.push_bytes(record),
            _ if record.capacity() <= 3 => answer.push("small"),
            _ => answer.push("large"),
        }
    }
}
