//! The answer to a case.
use crate::damage::push_damaged;
use crate::disks::{append_to, calls_twice, case_disk, disk_of};
use crate::sessions::follow;
use rel_disk::DeviceFault;
use rel_store::Store;
use std::alloc::{AllocError, Global};
use std::sync::Wait;
use text_cases::Answer;

/// The answer in one of eight modes. Sizes and places are in bytes.
///
/// `disk`: what the sessions of the text answer, one after another on a disk. The disk is as in
/// [`disk_of`]; after ` | ` stand the sessions, as in [`follow`]. `node`: the same on an empty disk
/// of 4,096 bytes. `store`: the same on such a disk with a new store, whose only record is `[].` and
/// whose start slot has the text `14.2 A` and a new line. In both the text has the sessions alone.
/// `start`: the text is that of the start slot of a new store, and the session opens the store and
/// reads its start.
///
/// `damaged`: after a byte, as a number, stand sessions, as in [`push_damaged`].
///
/// `append`: what [`crate::disk_callers::append`] of `abc` to a disk answers, and what a read gives
/// then. In the text `fail N` the call N fails, and in `part N` with a part of its effect.
///
/// `twice`: what five calls answer, two times over, of a failing disk within another, as in
/// [`crate::disks::five_calls`]. The text is the number of the call that fails on the one without, and of
/// that on the one within, which has room for one byte. How many calls have failed is reported after
/// each five, and at the end how many on the one within.
///
/// `fault`: the text of a fault of a device.
pub(crate) fn answer<H: Wait>(
    rt: &H,
    alloc: Global,
    mode: &str,
    text: &[u8],
) -> Result<String, AllocError> {
    let mut answer = Answer::new(alloc);
    push_answer(rt, alloc, mode, text, &mut answer);
    answer.finish()
}

fn push_answer<H: Wait>(rt: &H, alloc: Global, mode: &str, bytes: &[u8], answer: &mut Answer) {
    let text = str::from_utf8(bytes).unwrap_or("");
    match mode {
        "disk" => {
            let (sizes, sessions) = text.split_once(" | ").unwrap_or((text, ""));
            on_disk(rt, alloc, sizes, sessions, answer);
        }
        "node" => on_disk(rt, alloc, "4096 65536", text, answer),
        "store" => on_store(rt, alloc, b"14.2 A\n", text, answer),
        "start" => on_store(rt, alloc, bytes, "open; read_start", answer),
        "damaged" => push_damaged(rt, alloc, text, answer),
        "append" => append_to(alloc, text, answer),
        "twice" => calls_twice(alloc, text, answer),
        "fault" => answer.push_shown(&DeviceFault),
        _ => answer.push("no such mode"),
    }
}

// What sessions answer on the disk of these words.
fn on_disk<H: Wait>(rt: &H, alloc: Global, words: &str, sessions: &str, answer: &mut Answer) {
    match disk_of(alloc, words) {
        Ok(disk) => drop(follow(rt, alloc, disk, sessions, answer)),
        Err(_) => answer.note_no_memory(),
    }
}

// What they answer on a disk with a new store, in whose start slot this text stands, as far as it
// has room there.
fn on_store<H: Wait>(rt: &H, alloc: Global, start: &[u8], sessions: &str, answer: &mut Answer) {
    let Ok(disk) = case_disk(alloc) else {
        return answer.note_no_memory();
    };
    match Store::create(alloc, disk, b"[].", &start[..start.len().min(127)]) {
        Ok(store) => drop(follow(rt, alloc, store.into_disk(), sessions, answer)),
        Err(_) => answer.push("no store"),
    }
}
