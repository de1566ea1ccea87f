//! Appups.
use crate::appup_texts::{push_appup, push_instrs};
use appup_file::{Appup, AppupFault, read_appup};
use relup_instruction::Direction;
use std::alloc::Global;
use text_cases::{Answer, enclosed, first_word};

/// Appends what is read of a file, or its fault.
pub(crate) fn push_read(read: &Result<Appup, AppupFault>, answer: &mut Answer) {
    match read {
        Ok(appup) => push_appup(appup, answer),
        Err(fault) => answer.push_shown(fault),
    }
}

/// Appends what is read of a file whose only upgrade has these instructions.
pub(crate) fn push_with_instrs(alloc: Global, row: &[u8], answer: &mut Answer) {
    match enclosed(alloc, b"{\"2\",[{\"1\",[", row, b"]}],[]}.") {
        Ok(file) => push_found(alloc, Direction::Up, "1", &file, answer),
        Err(_) => answer.note_no_memory(),
    }
}

/// Appends what is found for a version, with the file after it.
pub(crate) fn push_searched(alloc: Global, direction: Direction, text: &str, answer: &mut Answer) {
    let (vsn, file) = first_word(text);
    push_found(alloc, direction, vsn, file.as_bytes(), answer);
}

fn push_found(alloc: Global, direction: Direction, vsn: &str, file: &[u8], answer: &mut Answer) {
    match read_appup(alloc, file) {
        Ok(appup) => match appup.entry_for(vsn, direction) {
            Ok(instrs) => push_instrs(alloc, instrs, answer),
            Err(fault) => answer.push_shown(&fault),
        },
        Err(fault) => answer.push_shown(&fault),
    }
}
