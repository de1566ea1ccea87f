//! Appups: `appup_file`.
use appup_file::{AppupFault, AppupInstr, Direction, EntryFault, read_appup};
use std::alloc::Global;
use text_cases::{Answer, first_word};

/// Appends how many instructions lead up from a version by an appup, and how many down to it. The text is the version and the file.
pub(crate) fn push_entry(alloc: Global, words: &str, answer: &mut Answer) {
    let (vsn, file) = first_word(words);
    match read_appup(alloc, file.as_bytes()) {
        Ok(appup) => {
            answer.push("up ");
            push_instrs(appup.entry_for(vsn, Direction::Up), answer);
            answer.push(", down ");
            push_instrs(appup.entry_for(vsn, Direction::Down), answer);
        }
        Err(AppupFault::BadTerm(fault)) => {
            answer.push("BadTerm ");
            answer.push_shown(&fault);
        }
        Err(AppupFault::BadShape) => answer.push("BadShape"),
        Err(AppupFault::NoMemory) => answer.note_no_memory(),
    }
}

fn push_instrs(found: Result<&[AppupInstr], EntryFault>, answer: &mut Answer) {
    match found {
        Ok(instrs) => answer.push_number(instrs.len() as u64),
        Err(EntryFault::NoEntry) => answer.push("NoEntry"),
        Err(EntryFault::RegexVersion) => answer.push("RegexVersion"),
    }
}
