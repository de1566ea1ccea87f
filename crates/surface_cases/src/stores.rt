//! A store of records, and its start record: `rel_store` and `start_record`.
ghost use Rattle.std.specs.Prelude.{IfOk};
ghost use Rattle.rel_store.specs.State.{IsSoundStore};

use crate::disks::new_disk;
use rel_disk::Disk;
use rel_store::{Store, StoreError};
use start_record::{Start, StartError, read_start, write_start};
use std::alloc::{AllocError, Global};
use std::fmt::Debug;
use text_cases::{Answer, first_word};

// The start slot with which the stores are made.
const SLOT: &[u8] = b"14.2 A\n";

// A store of one record on a disk, or why there is none.
fn made<D: Disk + Drop>(alloc: Global, disk: D, body: &str) -> Result<Store<D>, StoreError>
    ensures { IfOk result (IsSoundStore D.seen D.may_leave) }
{
    match Store::create(alloc, disk, body.as_bytes(), SLOT) {
        Ok(store) => Ok(store),
        Err((error, _disk)) => Err(error),
    }
}

/// Appends what each call answers of a store whose first record has the first word as its body. The second word is appended to
/// it, and the third is the image.
pub(crate) fn push_store(alloc: Global, words: &str, answer: &mut Answer) {
    match new_disk(alloc) {
        Ok(disk) => push_store_on(alloc, disk, words, answer),
        Err(_) => answer.note_no_memory(),
    }
}

fn push_store_on<D: Disk + Drop>(alloc: Global, disk: D, words: &str, answer: &mut Answer) {
    let (first, words) = first_word(words);
    let (second, image) = first_word(words);
    match made(alloc, disk, first) {
        Ok(mut store) => {
            push_appended(alloc, &mut store, second, answer);
            push_compacted(alloc, &mut store, image, answer);
            push_opened(alloc, store.into_disk(), first, answer);
        }
        Err(error) => answer.push_debug(&error),
    }
}

fn push_appended<D: Disk>(alloc: Global, store: &mut Store<D>, body: &str, answer: &mut Answer)
    requires { IsSoundStore D.seen D.may_leave store.old }
    ensures { IsSoundStore D.seen D.may_leave store.new }
{
    answer.push("reserve ");
    push_done(store.reserve(alloc, body.len()), answer);
    answer.push(", fits ");
    answer.push(if store.fits(body.len()) {
        "true"
    } else {
        "false"
    });
    answer.push(", append ");
    push_done(store.append(alloc, body.as_bytes()), answer);
    push_records(store.records(), answer);
}

fn push_compacted<D: Disk>(alloc: Global, store: &mut Store<D>, image: &str, answer: &mut Answer)
    requires { IsSoundStore D.seen D.may_leave store.old }
    ensures { IsSoundStore D.seen D.may_leave store.new }
{
    answer.push_counted(", format ", u64::from(store.format()));
    answer.push(", to_format_2 ");
    push_done(store.to_format_2(), answer);
    answer.push(", compact ");
    push_done(store.compact(alloc, image.as_bytes()), answer);
    push_records(store.records(), answer);
}

// The disk is opened again, and no second store is made on it.
fn push_opened<D: Disk + Drop>(alloc: Global, disk: D, first: &str, answer: &mut Answer) {
    answer.push(", open_disk");
    match Store::open_disk(alloc, disk) {
        Ok(store) => {
            push_records(store.records(), answer);
            push_refused(alloc, store.into_disk(), first, answer);
        }
        Err((error, _disk)) => answer.push_debug(&error),
    }
}

fn push_refused<D: Disk + Drop>(alloc: Global, disk: D, first: &str, answer: &mut Answer) {
    answer.push(", create ");
    match Store::create(alloc, disk, first.as_bytes(), SLOT) {
        Ok(_store) => answer.push("ok"),
        Err((error, _disk)) => answer.push_debug(&error),
    }
}

fn push_records(records: &[Vec<u8>], answer: &mut Answer) {
    answer.push(" records");
    for body in records {
        answer.push(" ");
        answer.push_bytes(body);
    }
}

fn push_done<E: Debug + Drop>(done: Result<(), E>, answer: &mut Answer) {
    match done {
        Ok(()) => answer.push("ok"),
        Err(error) => answer.push_debug(&error),
    }
}

/// Appends the start record of a new store, that of these two versions after it was written, the slot that it has then, and
/// what is read where the slot has another text.
pub(crate) fn push_start(alloc: Global, words: &str, answer: &mut Answer) {
    match new_disk(alloc) {
        Ok(disk) => push_start_on(alloc, disk, words, answer),
        Err(_) => answer.note_no_memory(),
    }
}

fn push_start_on<D: Disk + Drop>(alloc: Global, disk: D, words: &str, answer: &mut Answer) {
    match made(alloc, disk, "[].") {
        Ok(mut store) => {
            push_start_read(alloc, &mut store, answer);
            answer.push(", write_start ");
            push_done(write_versions(alloc, &mut store, words), answer);
            answer.push(", ");
            push_start_read(alloc, &mut store, answer);
            push_slot(&mut store, answer);
            answer.push(", write_slot ");
            push_done(store.write_slot(b"14.2"), answer);
            answer.push(", ");
            push_start_read(alloc, &mut store, answer);
        }
        Err(error) => answer.push_debug(&error),
    }
}

fn write_versions<D: Disk>(
    alloc: Global,
    store: &mut Store<D>,
    words: &str,
) -> Result<(), StartError>
    requires { IsSoundStore D.seen D.may_leave store.old }
    ensures { IsSoundStore D.seen D.may_leave store.new }
{
    let start = start_of(alloc, words)?;
    write_start(store, &start)
}

fn start_of(alloc: Global, words: &str) -> Result<Start, AllocError> {
    let (erts, vsn) = first_word(words);
    Ok(Start {
        erts: String::from_str(alloc, erts)?,
        vsn: String::from_str(alloc, vsn)?,
    })
}

fn push_start_read<D: Disk>(alloc: Global, store: &mut Store<D>, answer: &mut Answer)
    requires { IsSoundStore D.seen D.may_leave store.old }
    ensures { IsSoundStore D.seen D.may_leave store.new }
{
    answer.push("read_start ");
    match read_start(alloc, store) {
        Ok(start) => {
            answer.push_after(start.erts.as_str(), " ");
            answer.push(start.vsn.as_str());
        }
        Err(error) => answer.push_debug(&error),
    }
}

fn push_slot<D: Disk>(store: &mut Store<D>, answer: &mut Answer)
    requires { IsSoundStore D.seen D.may_leave store.old }
    ensures { IsSoundStore D.seen D.may_leave store.new }
{
    let mut slot = [0; 128];
    answer.push(", read_slot ");
    match store.read_slot(&mut slot) {
        Ok(()) => answer.push_bytes(&slot[..10]),
        Err(error) => answer.push_debug(&error),
    }
}
