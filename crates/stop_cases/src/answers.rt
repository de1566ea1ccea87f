//! The answer to a case.
use crate::calls::push_calls;
use crate::expected::Expected;
use crate::faults::push_faults;
use crate::runs::Session;
use crate::stops::push_stops;
use std::alloc::{AllocError, Global};
use std::sync::Wait;
use std::thread::Threads;
use text_cases::{Answer, first_word, number};

/// The answer in one of these modes. A text is a number and the lines of a session, parted by ` | `: those that give its files, and
/// after ` || ` its commands. So many of the commands go by before the first call that is cut off or fails.
///
/// - `stops`: the disk stops at each call in turn (src/stops.rt).
/// - `faults`: one call of the disk fails, each in turn, and does nothing (src/faults.rt).
/// - `parts`: so, and it has a part of its effect.
///
/// `calls`: what the commands of a session answer (src/calls.rt). Its text has no number, and its files are a path, a blank and the
/// bytes each.
pub(crate) fn answer<H: Threads + Wait + Sync>(
    rt: &H,
    alloc: Global,
    mode: &str,
    text: &[u8],
) -> Result<String, AllocError> {
    let text = str::from_utf8(text).unwrap_or("");
    let mut answer = Answer::new(alloc);
    let done = match mode {
        "calls" => push_calls(rt, alloc, &Session::of(alloc, text)?, &mut answer),
        _ => push_runs(rt, alloc, mode, text, &mut answer),
    };
    answer.note(done);
    answer.finish()
}

fn push_runs<H: Threads + Wait + Sync>(
    rt: &H,
    alloc: Global,
    mode: &str,
    text: &str,
    answer: &mut Answer,
) -> Result<(), AllocError> {
    let (from, lines) = first_word(text);
    let session = Session::of(alloc, lines)?;
    let expected = Expected::of(rt, alloc, &session)?;
    push_case(rt, alloc, mode, number(from), &session, &expected, answer)
}

fn push_case<H: Threads + Wait + Sync>(
    rt: &H,
    alloc: Global,
    mode: &str,
    from: usize,
    session: &Session,
    expected: &Expected,
    answer: &mut Answer,
) -> Result<(), AllocError> {
    match mode {
        "stops" => push_stops(rt, alloc, session, expected, from, answer),
        "faults" => push_faults(rt, alloc, session, expected, from, false, answer),
        "parts" => push_faults(rt, alloc, session, expected, from, true, answer),
        _ => {
            answer.push("no such mode");
            Ok(())
        }
    }
}
