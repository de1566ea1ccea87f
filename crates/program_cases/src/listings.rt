//! Listings of the terms of a text.
use crate::failing_readers::Broken;
use crate::narrow_writers::{Bounded, Room, WIDE};
use crate::sessions::{push_end, push_written};
use counted_io::{CountedReader, CountedWriter};
use erl_consult::consult;
use std::alloc::Global;
use std::io::{ErrorKind, Read};
use text_cases::{Answer, first_word};

/// Appends what this room takes of the listing of what a reader gives, and how that ended.
pub(crate) fn push_listed<R: Read + Drop>(
    alloc: Global,
    reader: R,
    room: Room,
    answer: &mut Answer,
) {
    let mut written = Vec::new(alloc);
    let mut reader = CountedReader::new(reader);
    let mut writer = CountedWriter::new(Bounded {
        room,
        written: &mut written,
    });
    let ended = consult(alloc, &mut reader, &mut writer);
    drop(writer);
    push_written(alloc, &written, answer);
    push_end(&ended, answer);
}

/// The same of what a reader gives before it fails. In front of that stands the kind of its error.
pub(crate) fn push_broken(alloc: Global, text: &str, answer: &mut Answer) {
    let (kind, text) = first_word(text);
    let reader = Broken {
        text: text.as_bytes(),
        piece: 1,
        kind: kind_of(kind),
    };
    push_listed(alloc, reader, WIDE, answer);
}

/// The same of what stands after two numbers. It is taken a byte at a write. So many writes are taken and so many flushes.
/// Then a write takes nothing, and a flush fails.
pub(crate) fn push_in_room(alloc: Global, text: &str, answer: &mut Answer) {
    let (room, text) = Room::of_words(1, text);
    push_listed(alloc, text.as_bytes(), room, answer);
}

fn kind_of(word: &str) -> ErrorKind {
    match word {
        "OutOfMemory" => ErrorKind::OutOfMemory,
        "Interrupted" => ErrorKind::Interrupted,
        _ => ErrorKind::Other,
    }
}
