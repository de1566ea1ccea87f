//! Sessions of a node, and the options of the program: `rel_session` and `rel_host`.
use crate::disks::new_disk;
use crate::handlers::SampleFiles;
use counted_io::CountedWriter;
use rel_disk::MemDisk;
use rel_host::{Options, OptionsError, read_options};
use rel_session::{Input, SessionError, session};
use std::alloc::Global;
use std::sync::Wait;
use std::thread::Threads;
use text_cases::Answer;

/// Appends what a session writes on an empty disk, with ` / ` for each newline, and how it ended. Its lines are parted by ` | `.
pub(crate) fn push_session<R: Threads + Wait + Sync>(
    rt: &R,
    alloc: Global,
    words: &str,
    answer: &mut Answer,
) {
    let (Ok(disk), Ok(lines)) = (new_disk(alloc), words.replace(alloc, " | ", "\n")) else {
        return answer.note_no_memory();
    };
    let mut written = Vec::new(alloc);
    let ended = run(rt, alloc, disk, lines.as_bytes(), &mut written);
    let written = str::from_utf8(&written).unwrap_or("no text");
    answer.push_made(&written.replace(alloc, "\n", " / "));
    push_ended(ended, answer);
}

fn run<R: Threads + Wait + Sync>(
    rt: &R,
    alloc: Global,
    disk: MemDisk,
    reader: &[u8],
    writer: &mut Vec<u8>,
) -> Result<(), SessionError> {
    let mut input = Input::new(alloc, reader)?;
    let mut output = CountedWriter::new(writer);
    let (_disk, ended) = session(rt, alloc, disk, &SampleFiles, &mut input, &mut output);
    ended
}

fn push_ended(ended: Result<(), SessionError>, answer: &mut Answer) {
    answer.push(match ended {
        Ok(()) => "ended",
        Err(SessionError::Read) => "Read",
        Err(SessionError::Write) => "Write",
        Err(SessionError::Limit) => "Limit",
        Err(SessionError::NoMemory) => "NoMemory",
    });
}

/// Appends the options of these arguments.
pub(crate) fn push_options(alloc: Global, words: &str, answer: &mut Answer) {
    match words.split_whitespace().collect::<Vec<&str>>(alloc) {
        Ok(words) => match read_options(alloc, &words) {
            Ok(options) => push_given(&options, answer),
            Err(OptionsError::BadArguments) => answer.push("BadArguments"),
            Err(OptionsError::NoMemory) => answer.note_no_memory(),
        },
        Err(_) => answer.note_no_memory(),
    }
}

fn push_given(options: &Options, answer: &mut Answer) {
    answer.push_after("store ", text_of(&options.store));
    answer.push_after(", root ", text_of(&options.root));
}

fn text_of(option: &Option<String>) -> &str {
    match option {
        Some(text) => text.as_str(),
        None => "none",
    }
}
