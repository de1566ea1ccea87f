//! Disks in memory, among them disks that are full and disks that fail.
ghost use Rattle.std.specs.Prelude.{◌≡◌, []};

use crate::disk_callers::append;
use rel_disk::{DeviceFault, Disk, FailDisk, MemDisk};
use std::alloc::{AllocError, Global};
use text_cases::{Answer, first_word, number};

/// The empty disk of a case that names none.
pub(crate) fn case_disk(alloc: Global) -> Result<MemDisk, AllocError> {
    MemDisk::new(alloc, 4096, 1 << 16)
}

/// The disk that these words name: its capacity, the bytes of its log, and those with which it
/// begins, as many as it holds.
pub(crate) fn disk_of(alloc: Global, words: &str) -> Result<MemDisk, AllocError> {
    let (capacity, rest) = first_word(words);
    let (log, text) = first_word(rest);
    let capacity = number(capacity);
    let bytes = &text.as_bytes()[..text.len().min(capacity)];
    MemDisk::with_bytes(alloc, bytes, capacity, number(log))
}

/// The disk whose call of this number fails, and with `part` has a part of its effect.
pub(crate) fn failing<D: Disk>(disk: D, how: &str, call: &str) -> FailDisk<D>
    ensures { result.disk ≡ disk }
{
    FailDisk::failing(disk, number(call) as u64, matches!(how, "part"))
}

/// All that a read gives. Where none is given, that is appended.
pub(crate) fn bytes_of<D: Disk>(
    alloc: Global,
    disk: &mut D,
    answer: &mut Answer,
) -> Option<Vec<u8>> {
    let Ok(len) = disk.len() else {
        answer.push("no bytes");
        return None;
    };
    let Ok(mut bytes) = vec![in alloc; 0; len as usize] else {
        answer.note_no_memory();
        return None;
    };
    if disk.read(0, &mut bytes).is_err() {
        answer.push("no bytes");
        return None;
    }
    Some(bytes)
}

/// Appends all that a read gives, in quotes.
pub(crate) fn push_read<D: Disk>(alloc: Global, disk: &mut D, answer: &mut Answer) {
    answer.push("\"");
    if let Some(bytes) = bytes_of(alloc, disk, answer) {
        answer.push_bytes(&bytes);
    }
    answer.push("\"");
}

/// Appends how many calls of a disk have failed.
pub(crate) fn push_failures(failures: u64, answer: &mut Answer) {
    answer.push(", failures ");
    answer.push_number(failures);
}

/// Appends what two disks in one another answer that fail one call each. Both failures are counted
/// beside those of the disk within.
pub(crate) fn calls_twice(alloc: Global, calls: &str, answer: &mut Answer) {
    let (outer, inner) = first_word(calls);
    match MemDisk::new(alloc, 1, 1024) {
        Ok(disk) => push_around(
            FailDisk::new(disk, number(inner) as u64),
            number(outer) as u64,
            answer,
        ),
        Err(_) => answer.note_no_memory(),
    }
}

// That of a disk around this one.
fn push_around<D: Disk + Drop>(disk: D, call: u64, answer: &mut Answer) {
    let mut disk = FailDisk::new(disk, call);
    push_five_calls(&mut disk, answer);
    answer.push(" | ");
    push_five_calls(&mut disk, answer);
    answer.push(" | within");
    push_failures(disk.disk.failures(), answer);
}

fn push_five_calls<D: Disk>(disk: &mut D, answer: &mut Answer) {
    five_calls(disk, answer);
    push_failures(disk.failures(), answer);
}

/// Appends what a call of each kind answers: a write, the length, a sync, a read and a cut in this
/// order.
pub(crate) fn five_calls<D: Disk>(disk: &mut D, answer: &mut Answer) {
    answer.push_is_ok(disk.write_at(0, b"ab").is_ok());
    push_call(disk.len(), answer);
    push_call(disk.sync(), answer);
    push_call(disk.read(0, &mut []), answer);
    push_call(disk.cut(0), answer);
}

fn push_call<T: Drop>(done: Result<T, DeviceFault>, answer: &mut Answer) {
    answer.push(" ");
    answer.push_is_ok(done.is_ok());
}

/// Appends whether an append succeeds, and what is read then.
pub(crate) fn append_to(alloc: Global, case: &str, answer: &mut Answer) {
    let (how, call) = first_word(case);
    let Ok(disk) = MemDisk::new(alloc, 64, 1024) else {
        return answer.note_no_memory();
    };
    let (is_ok, disk) = match append(failing(disk, how, call), b"abc") {
        Ok(disk) => (true, disk),
        Err((_, disk)) => (false, disk),
    };
    let mut disk = disk;
    answer.push_is_ok(is_ok);
    answer.push(" ");
    push_read(alloc, &mut disk.disk, answer);
}
