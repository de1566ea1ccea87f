//! Sessions on a disk in memory, and what they write.
use crate::given::given;
use crate::narrow_writers::{Bounded, Room, WIDE};
use counted_io::CountedWriter;
use rel_disk::{Disk, FailDisk, MemDisk};
use rel_session::session;
use session_input::{Input, SessionError};
use std::alloc::{AllocError, Global};
use std::fmt;
use std::io::{Read, Write};
use std::sync::Wait;
use std::thread::Threads;
use text_cases::{Answer, CaseFiles};

/// The application's files of both versions: for each a line of its path, a blank and its bytes.
pub(crate) const APPLICATIONS: &str =
    r#"lib/ch_app-1/ebin/ch_app.app {application,ch_app,[{vsn,"1"}]}.
lib/ch_app-2/ebin/ch_app.app {application,ch_app,[{vsn,"2"}]}."#;

// Room for the sessions of these cases, in bytes.
const DISK: usize = 65_536;

/// What befalls the first session of a case.
#[derive(Clone, Copy)]
pub(crate) struct Setting {
    /// The disk's call of this number, counted from 1, fails. With 0 none does.
    pub(crate) call: usize,
    /// Whether that call has a part of its effect, in place of none.
    pub(crate) in_part: bool,
    /// The room for what it writes.
    pub(crate) room: Room,
}

/// Nothing fails.
pub(crate) const PLAIN: Setting = Setting {
    call: 0,
    in_part: false,
    room: WIDE,
};

/// Appends what each session of a text writes, as in [`push_written`], and how it ended. They follow each other on one disk, which
/// is empty at first.
///
/// Where a text has sessions, their lines are parted by ` | `, and the sessions by ` || `. A line `@NAME` stands for the lines
/// that give the files of this name (src/given.rt); each file has an answer of its own. A file that isn't given in its session
/// comes from a source of these files, which have the form of [`APPLICATIONS`].
pub(crate) fn push_sessions<H: Threads + Wait + Sync>(
    rt: &H,
    alloc: Global,
    files: &str,
    first: Setting,
    text: &str,
    answer: &mut Answer,
) {
    match MemDisk::new(alloc, DISK, 2 * DISK) {
        Ok(disk) => {
            let disk = FailDisk::failing(disk, first.call as u64, first.in_part);
            follow_all(rt, alloc, disk, files, first.room, text, answer);
        }
        Err(_) => answer.note_no_memory(),
    }
}

/// The same of sessions after the files of their source.
pub(crate) fn push_over_files<H: Threads + Wait + Sync>(
    rt: &H,
    alloc: Global,
    text: &str,
    answer: &mut Answer,
) {
    let (files, text) = text.split_once(" || ").unwrap_or((text, ""));
    let files = lines_of(alloc, files, answer);
    push_sessions(rt, alloc, files.as_str(), PLAIN, text, answer);
}

/// Appends what one session of this input writes.
pub(crate) fn push_input<H: Threads + Wait + Sync, R: Read + Drop>(
    rt: &H,
    alloc: Global,
    reader: R,
    answer: &mut Answer,
) {
    match MemDisk::new(alloc, DISK, 2 * DISK) {
        Ok(disk) => drop(follow(rt, alloc, disk, APPLICATIONS, WIDE, reader, answer)),
        Err(_) => answer.note_no_memory(),
    }
}

/// Appends what a session of a text writes on this disk, and how it ended.
pub(crate) fn push_session_on<H: Threads + Wait + Sync, D: Disk + Drop>(
    rt: &H,
    alloc: Global,
    disk: D,
    text: &str,
    answer: &mut Answer,
) {
    let lines = lines_of(alloc, text, answer);
    drop(follow(
        rt,
        alloc,
        disk,
        APPLICATIONS,
        WIDE,
        lines.as_bytes(),
        answer,
    ));
}

/// Appends that of one which gives a file of so many bytes, a line of blanks, and makes a node of it.
pub(crate) fn push_blanks<H: Threads + Wait + Sync>(
    rt: &H,
    alloc: Global,
    bytes: usize,
    answer: &mut Answer,
) {
    match blanks(alloc, bytes) {
        Ok(input) => push_input(rt, alloc, input.as_bytes(), answer),
        Err(_) => answer.note_no_memory(),
    }
}

fn blanks(alloc: Global, bytes: usize) -> Result<String, AllocError> {
    let mut input = Answer::new(alloc);
    input.push("file p\n");
    for _ in 1..bytes {
        input.push(" ");
    }
    input.push("\n.end\ncreate p\n");
    input.finish()
}

// Appends what the sessions of a text write, one after another on this disk. The room is that of the first, in which alone the
// disk may fail.
fn follow_all<H: Threads + Wait + Sync>(
    rt: &H,
    alloc: Global,
    disk: FailDisk<MemDisk>,
    files: &str,
    room: Room,
    text: &str,
    answer: &mut Answer,
) {
    let mut disk = disk;
    let mut room = room;
    for part in text.split(" || ") {
        let lines = lines_of(alloc, part, answer);
        disk = follow(rt, alloc, disk, files, room, lines.as_bytes(), answer);
        disk.plan.left = 0;
        room = WIDE;
    }
}

// The lines of a text, each with those that it stands for.
fn lines_of(alloc: Global, text: &str, answer: &mut Answer) -> String {
    let mut lines = String::new(alloc);
    for line in text.split(" | ") {
        let files = given(line);
        if files.is_empty() {
            push_line(line, &mut lines, answer);
        }
        for file in files {
            push_line(file, &mut lines, answer);
        }
    }
    lines
}

// Appends a line, or some, with a newline.
fn push_line(line: &str, lines: &mut String, answer: &mut Answer) {
    answer.note(lines.push_str(line));
    answer.note(lines.push('\n'));
}

// Appends what this room takes of a session of this input. The disk comes back.
fn follow<H: Threads + Wait + Sync, D: Disk + Drop, R: Read + Drop>(
    rt: &H,
    alloc: Global,
    disk: D,
    files: &str,
    room: Room,
    reader: R,
    answer: &mut Answer,
) -> D {
    let mut written = Vec::new(alloc);
    let writer = Bounded {
        room,
        written: &mut written,
    };
    let (disk, ended) = run(rt, alloc, disk, files, reader, writer);
    push_written(alloc, &written, answer);
    push_end(&ended, answer);
    disk
}

// Runs a session of this input, with this writer. The disk comes back, and how the session ended.
fn run<H: Threads + Wait + Sync, D: Disk + Drop, R: Read + Drop, W: Write + Drop>(
    rt: &H,
    alloc: Global,
    disk: D,
    files: &str,
    reader: R,
    writer: W,
) -> (D, Result<(), SessionError>) {
    let files = CaseFiles {
        lines: files.as_bytes(),
    };
    let mut output = CountedWriter::new(writer);
    match Input::new(alloc, reader) {
        Ok(mut input) => session(rt, alloc, disk, &files, &mut input, &mut output),
        Err(error) => (disk, Err(error)),
    }
}

/// Appends what was written, with ` | ` for a newline. What several sessions of a case wrote is parted by ` || `.
pub(crate) fn push_written(alloc: Global, written: &[u8], answer: &mut Answer) {
    if !answer.text.is_empty() {
        answer.push(" || ");
    }
    let written = str::from_utf8(written).unwrap_or("no text");
    answer.push_made(&written.replace(alloc, "\n", " | "));
}

/// Appends in parentheses how a session or a listing ended, and the text of its error.
pub(crate) fn push_end<E: fmt::Debug + fmt::Display>(ended: &Result<(), E>, answer: &mut Answer) {
    match ended {
        Ok(()) => answer.push("(end)"),
        Err(error) => {
            answer.push("(ended by ");
            answer.push_debug(error);
            answer.push(": ");
            answer.push_shown(error);
            answer.push(")");
        }
    }
}
