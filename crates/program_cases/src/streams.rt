//! Sessions and listings, also such whose disk, reader or writer fails.
use crate::failing_readers::{push_broken, push_letters};
use crate::host::push_host;
use crate::listings;
use crate::listings::push_in_room;
use crate::narrow_writers::Room;
use crate::sessions::{APPLICATIONS, PLAIN, Setting, push_blanks, push_over_files, push_sessions};
use crate::watched::push_session_over;
use std::alloc::Global;
use std::sync::Wait;
use std::thread::Threads;
use text_cases::{Answer, first_word, number};

/// The answer in one of these modes, or in one of [`push_stream`] or of [`push_host`].
///
/// - `session`: the text has sessions, as in [`push_sessions`].
/// - `bare`: so, and the source has no files.
/// - `files`: the source has the files before the first ` || `, which are parted by ` | `: for each its path, a blank and its
///   bytes. After that are sessions.
/// - `session_over`: as in [`push_session_over`].
/// - `list_broken`: as in [`listings::push_broken`].
pub(crate) fn push_of_text<H: Threads + Wait + Sync>(
    rt: &H,
    host: &HostRuntime,
    mode: &str,
    text: &str,
    answer: &mut Answer,
) {
    let alloc = host.alloc();
    match mode {
        "session" => push_sessions(rt, alloc, APPLICATIONS, PLAIN, text, answer),
        "bare" => push_sessions(rt, alloc, "", PLAIN, text, answer),
        "files" => push_over_files(rt, alloc, text, answer),
        "session_over" => push_session_over(rt, host, text, answer),
        "list_broken" => listings::push_broken(alloc, text, answer),
        _ => push_stream(rt, host, mode, text, answer),
    }
}

// The answer in one of eight modes, whose text begins with a number.
//
// - `blanks`: the input gives a file of so many bytes, a line of blanks, and makes a node of it.
// - `letters`: the input is so many letters, and a read fails after them.
// - `broken`: after the number are the bytes of one input. A read gives at most so many of them, and fails after the last.
// - `fail`: after the number are sessions. The disk's call of this number, counted from 1, fails in the first session, and
//   does nothing.
// - `part`: so, and the call that fails has a part of its effect.
// - `bytes`: after the number are sessions. What the first session writes is taken a byte at a write. So many are taken, and
//   then a write fails.
// - `writes`: after the number are another one and sessions. So many writes of the first session and so many flushes are
//   taken. Then a write takes nothing, and a flush fails.
// - `list_bytes`: after the numbers is a text. Its listing is taken so, a byte at a write.
fn push_stream<H: Threads + Wait + Sync>(
    rt: &H,
    host: &HostRuntime,
    mode: &str,
    text: &str,
    answer: &mut Answer,
) {
    let alloc = host.alloc();
    let (word, rest) = first_word(text);
    let count = number(word);
    match mode {
        "blanks" => push_blanks(rt, alloc, count, answer),
        "letters" => push_letters(rt, alloc, count, answer),
        "broken" => push_broken(rt, alloc, rest.as_bytes(), count, answer),
        "list_bytes" => push_in_room(alloc, text, answer),
        "writes" => push_writes(rt, alloc, text, answer),
        "fail" | "part" | "bytes" => push_first(rt, alloc, mode, count, rest, answer),
        _ => push_host(host, mode, text, answer),
    }
}

fn push_writes<H: Threads + Wait + Sync>(rt: &H, alloc: Global, text: &str, answer: &mut Answer) {
    let (room, text) = Room::of_words(9_999, text);
    push_sessions(
        rt,
        alloc,
        APPLICATIONS,
        Setting { room, ..PLAIN },
        text,
        answer,
    );
}

fn push_first<H: Threads + Wait + Sync>(
    rt: &H,
    alloc: Global,
    mode: &str,
    count: usize,
    text: &str,
    answer: &mut Answer,
) {
    let mut first = PLAIN;
    match mode {
        "bytes" => first.room = Room::of_bytes(count),
        _ => first.call = count,
    }
    first.in_part = mode == "part";
    push_sessions(rt, alloc, APPLICATIONS, first, text, answer);
}
