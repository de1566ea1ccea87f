//! Relups, and the scripts in them.
use erl_term::print;
use relup_file::{Found, Relup, RelupFault, ScriptFault, check, find_script, read_relup};
use relup_instruction::Direction;
use std::alloc::Global;
use text_cases::{Answer, enclosed, first_word};

/// The relup of a file whose only upgrade has these instructions.
pub(crate) fn with_script(alloc: Global, script: &[u8]) -> Result<Relup, RelupFault> {
    let file = enclosed(alloc, b"{\"B\",[{\"A\",[],[", script, b"]}],[]}.")?;
    read_relup(alloc, &file)
}

/// Appends whether the script of the first upgrade can be run.
pub(crate) fn push_checked(read: &Result<Relup, RelupFault>, answer: &mut Answer) {
    match read {
        Ok(relup) => match relup.ups.first() {
            Some(entry) => push_check(check(&entry.script), answer),
            None => answer.push("no upgrade"),
        },
        Err(fault) => answer.push_shown(fault),
    }
}

fn push_check(checked: Result<(), ScriptFault>, answer: &mut Answer) {
    let Err(fault) = checked else {
        return answer.push("ok");
    };
    answer.push_shown(&fault);
    if let ScriptFault::Misplaced(n) | ScriptFault::Unsupported(n) = fault {
        answer.push_counted(" ", n as u64);
    }
}

/// Appends what is found with these versions and relups.
pub(crate) fn push_search(alloc: Global, text: &str, answer: &mut Answer) {
    let (target, rest) = first_word(text);
    let (running, relups) = first_word(rest);
    let (above, below) = relups.split_once('|').unwrap_or((relups, ""));
    let above = read_relup(alloc, above.as_bytes()).ok();
    let below = read_relup(alloc, below.as_bytes()).ok();
    match find_script(target, above.as_ref(), running, below.as_ref()) {
        Ok(found) => push_found(alloc, found, answer),
        Err(none) => answer.push_shown(&none),
    }
}

fn push_found(alloc: Global, found: Found<'_>, answer: &mut Answer) {
    let word = match found.direction {
        Direction::Up => "up from ",
        Direction::Down => "down to ",
    };
    answer.push_after(word, found.other);
    answer.push(", ");
    answer.push_made(&print(alloc, found.descr));
    answer.push_counted(", ", found.script.len() as u64);
    answer.push(" instructions");
}
