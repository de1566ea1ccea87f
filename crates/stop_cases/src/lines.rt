//! The lines of an answer.
use crate::expected::Expected;
use crate::runs::Session;
use std::alloc::AllocError;
use text_cases::Answer;

/// What is appended where memory is refused to a call, before what the same call answers that is made again.
pub(crate) const REFUSED: &str = "NoMemory, ";

/// Appends lines, parted by strokes.
pub(crate) fn push_lines(lines: &str, answer: &mut Answer) {
    for (i, line) in lines.lines().enumerate() {
        if i > 0 {
            answer.push(" / ");
        }
        answer.push(line);
    }
}

/// Appends lines that were made, if memory was there for them.
pub(crate) fn push_made_lines(made: &Result<String, AllocError>, answer: &mut Answer) {
    match made {
        Ok(lines) => push_lines(lines.as_str(), answer),
        Err(_) => answer.note_no_memory(),
    }
}

/// Appends which call of the disk it is, counted from 0, and in which command of the session.
pub(crate) fn push_call(session: &Session, expected: &Expected, call: u64, answer: &mut Answer) {
    answer.push_counted("call ", call);
    answer.push(" in `");
    let command = session.commands.get(expected.command_of(call));
    answer.push(command.map_or("", |command| command.as_str()));
    answer.push("`: ");
}
