//! Sessions whose disk stops.
use crate::expected::Expected;
use crate::lines::{push_call, push_lines};
use crate::runs::{BOOT, CAPACITY, LOG, Session, run};
use rel_disk::{MemDisk, Pick, StopDisk};
use std::alloc::{AllocError, Global};
use std::sync::Wait;
use std::thread::Threads;
use text_cases::Answer;

const PICKS: [Pick; 5] = [
    Pick::Kept,
    Pick::Filled(0),
    Pick::Filled(1),
    Pick::Filled(7),
    Pick::Short,
];

/// Appends for how many stops it is so, up to the first for which it isn't, that the command of the stopped call is the first that isn't
/// answered, and that a boot of each image which a crash may then leave reports what the session had acknowledged, or that with
/// this command. The stops are those in each call of the disk from the first of them that the command of number `from` makes,
/// counted from 0. Of the first stop for which it isn't so, the call, its command, and what a boot of which image reports.
pub(crate) fn push_stops<H: Threads + Wait + Sync>(
    rt: &H,
    alloc: Global,
    session: &Session,
    expected: &Expected,
    from: usize,
    answer: &mut Answer,
) -> Result<(), AllocError> {
    let first = expected.calls(from);
    let all = expected.all_calls();
    for call in first..all {
        if let Some(report) = unexplained(rt, alloc, session, expected, call)? {
            answer.push_number(call.saturating_sub(first));
            answer.push(" stops, but not ");
            push_call(session, expected, call, answer);
            push_lines(report.as_str(), answer);
            return Ok(());
        }
    }
    answer.push_number(all.saturating_sub(first));
    answer.push(" stops");
    Ok(())
}

// What a boot of an image reports that a crash may leave after a stop in this call, where that isn't explained. An image takes its
// disk, so there is a session for each.
fn unexplained<H: Threads + Wait + Sync>(
    rt: &H,
    alloc: Global,
    session: &Session,
    expected: &Expected,
    call: u64,
) -> Result<Option<String>, AllocError> {
    let lines = session.lines(alloc, session.commands.len())?;
    for pick in PICKS {
        let disk = StopDisk::new(MemDisk::new(alloc, CAPACITY, LOG)?, call);
        let (disk, text) = run(rt, alloc, disk, lines.as_str())?;
        let answered = expected.answered(text.as_str());
        if !disk.plan.stopped || answered != expected.command_of(call) {
            return Ok(Some(text));
        }
        let (_, boot) = run(rt, alloc, disk.image(pick), BOOT)?;
        if !expected.explains(answered, boot.as_str()) {
            return Ok(Some(boot));
        }
    }
    Ok(None)
}
