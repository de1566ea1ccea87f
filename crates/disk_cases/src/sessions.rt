//! Sessions on a disk in memory.
ghost use Rattle.rel_store.specs.State.{IsSettled};

use crate::disks::{bytes_of, failing, five_calls, push_failures, push_read};
use crate::nodes::{boots, create_node};
use crate::steps::{body_of, follow_steps, push_done};
use crate::store_callers::append_both;
use rel_disk::{DeviceFault, Disk};
use rel_store::Store;
use std::alloc::Global;
use std::sync::Wait;
use text_cases::{Answer, first_word, number};

/// Appends what sessions answer, one after another on this disk, with ` | ` between them as between
/// the sessions. Hands the disk back. A session is one of these:
///
/// - `write AT TEXT`, `cut LENGTH`, `sync`, `length`, `failures`: the calls of a disk. `read`: all
///   that a read gives. `bytes FROM TO`: the bytes from one place to another, or to the end.
/// - `calls`: a call of each kind, as in [`crate::disks::five_calls`].
/// - `patch AT BYTE..`: these bytes, in decimal, are written over what is there, and the disk is
///   synced. `shorten LENGTH`: it is cut and synced.
/// - `create BODY`: a store is made, with this first record and no start text.
/// - `open`: the store is opened, and its records are counted. Steps on the open store may follow,
///   each after `; `. [`crate::steps::follow_steps`] has them.
/// - `both A B`: the store is opened, and the records A and B are added by
///   [`crate::store_callers::append_both`].
/// - `node A B ..`: a node of the release A is made, and follows the other words as commands, at
///   most three. `boot B ..`: the node is booted, and follows all of the words. The answer is the
///   list of its releases, and where commands are given, what it answers to each, whether it is
///   `dead` or `open` then, and the list again. The command `B` takes the release B in, `+B`
///   installs it, `!B` makes it permanent, `<B` reboots it, `-B` removes it, and `?` reports the
///   start. [`crate::files::ReleaseFiles`] has the releases and their relups. No process runs.
/// - `unpack B`: the node is booted and takes B in, and no list is reported.
/// - `fail N SESSION`, `part N SESSION`: the call N of the device fails in this session, in the
///   second with a part of its effect. How many calls have failed is reported after it.
pub(crate) fn follow<H: Wait, D: Disk + Drop>(
    rt: &H,
    alloc: Global,
    disk: D,
    sessions: &str,
    answer: &mut Answer,
) -> D {
    let mut disk = disk;
    for (i, words) in sessions.split(" | ").enumerate() {
        if i > 0 {
            answer.push(" | ");
        }
        disk = session(rt, alloc, disk, words, answer);
    }
    disk
}

// Each session hands its disk back.
fn session<H: Wait, D: Disk + Drop>(
    rt: &H,
    alloc: Global,
    disk: D,
    words: &str,
    answer: &mut Answer,
) -> D {
    let (how, rest) = first_word(words);
    match how {
        "fail" | "part" => {
            let (call, words) = first_word(rest);
            let disk = session_on(rt, alloc, failing(disk, how, call), words, answer);
            push_failures(disk.failures(), answer);
            disk.disk
        }
        _ => session_on(rt, alloc, disk, words, answer),
    }
}

fn session_on<H: Wait, D: Disk + Drop>(
    rt: &H,
    alloc: Global,
    disk: D,
    words: &str,
    answer: &mut Answer,
) -> D {
    let (word, rest) = first_word(words);
    match word {
        "create" => create(alloc, disk, rest, answer),
        "open" | "open;" | "both" => open(alloc, disk, word, rest, answer),
        "node" => create_node(rt, alloc, disk, rest, answer),
        "boot" | "unpack" => boots(rt, alloc, disk, word, rest, answer),
        _ => {
            let mut disk = disk;
            follow_call(alloc, &mut disk, word, rest, answer);
            disk
        }
    }
}

fn create<D: Disk + Drop>(alloc: Global, disk: D, body: &str, answer: &mut Answer) -> D {
    let Ok(first) = body_of(alloc, body) else {
        answer.note_no_memory();
        return disk;
    };
    match Store::create(alloc, disk, &first, b"") {
        Ok(store) => {
            answer.push("ok");
            store.into_disk()
        }
        Err((error, disk)) => {
            answer.push_debug(&error);
            disk
        }
    }
}

fn open<D: Disk + Drop>(alloc: Global, disk: D, how: &str, words: &str, answer: &mut Answer) -> D {
    match Store::open_disk(alloc, disk) {
        Ok(store) => {
            let mut store = store;
            match how {
                "both" => push_both(alloc, &mut store, words, answer),
                _ => follow_steps(alloc, &mut store, words, answer),
            }
            store.into_disk()
        }
        Err((error, disk)) => {
            answer.push_debug(&error);
            disk
        }
    }
}

// Adds two records to a store.
fn push_both<D: Disk>(alloc: Global, store: &mut Store<D>, bodies: &str, answer: &mut Answer)
    requires { IsSettled D.seen D.may_leave store.old }
{
    let (a, b) = first_word(bodies);
    push_done(
        append_both(store, alloc, a.as_bytes(), b.as_bytes()),
        answer,
    );
}

// A session without a store.
fn follow_call<D: Disk>(alloc: Global, disk: &mut D, word: &str, rest: &str, answer: &mut Answer) {
    match word {
        "read" => push_read(alloc, disk, answer),
        "bytes" => push_part(alloc, disk, rest, answer),
        "length" => push_length(disk, answer),
        "failures" => answer.push_number(disk.failures()),
        "calls" => five_calls(disk, answer),
        _ => {
            let done = change(disk, word, rest, answer);
            answer.push_is_ok(done.is_ok());
        }
    }
}

// A call that changes the disk, or syncs it.
fn change<D: Disk>(
    disk: &mut D,
    word: &str,
    rest: &str,
    answer: &mut Answer,
) -> Result<(), DeviceFault> {
    let (place, bytes) = first_word(rest);
    let place = number(place) as u64;
    match word {
        "write" => write(disk, place, bytes.as_bytes()),
        "cut" => cut(disk, place),
        "patch" => patch(disk, place, bytes),
        "shorten" => {
            cut(disk, place)?;
            disk.sync()
        }
        "sync" => disk.sync(),
        _ => {
            answer.push("no such session, ");
            Err(DeviceFault)
        }
    }
}

/// Writes the bytes whose numbers these words are, one after another from a place on, and syncs the
/// disk.
pub(crate) fn patch<D: Disk>(disk: &mut D, at: u64, words: &str) -> Result<(), DeviceFault> {
    let mut at = at;
    for word in words.split(' ') {
        write(disk, at, &[(number(word) % 256) as u8])?;
        at = at.saturating_add(1);
    }
    disk.sync()
}

// Writes from a place on that is not past the end.
fn write<D: Disk>(disk: &mut D, at: u64, bytes: &[u8]) -> Result<(), DeviceFault> {
    match disk.len() {
        Ok(len) if at <= len => disk.write_at(at, bytes),
        _ => Err(DeviceFault),
    }
}

// Cuts a disk that is that long.
fn cut<D: Disk>(disk: &mut D, len: u64) -> Result<(), DeviceFault> {
    match disk.len() {
        Ok(old) if len <= old => disk.cut(len),
        _ => Err(DeviceFault),
    }
}

fn push_length<D: Disk>(disk: &mut D, answer: &mut Answer) {
    match disk.len() {
        Ok(len) => answer.push_number(len),
        Err(_) => answer.push("no length"),
    }
}

// Appends the bytes from the first of these places to the second, or to the end.
fn push_part<D: Disk>(alloc: Global, disk: &mut D, places: &str, answer: &mut Answer) {
    let (from, to) = first_word(places);
    if let Some(bytes) = bytes_of(alloc, disk, answer) {
        let to = number(to).min(bytes.len());
        answer.push_bytes(bytes.get(number(from)..to).unwrap_or(b"none"));
    }
}
