//! Sessions in which one call of the disk fails.
use crate::expected::Expected;
use crate::lines::{push_call, push_lines};
use crate::runs::{BOOT, CAPACITY, LOG, Session, run};
use rel_disk::{FailDisk, MemDisk};
use std::alloc::{AllocError, Global};
use std::sync::Wait;
use std::thread::Threads;
use text_cases::Answer;

/// Appends for how many of the disk's calls it is so, up to the first for which it isn't, that where this call fails its command and no
/// other is answered Device, all after it Dead up to the next boot, and that a boot after the session reports what it had
/// acknowledged, or that with the command which failed. The calls are those from the first that the command of number `from`
/// makes, counted from 0. Of the first call for which it isn't so, its command, and what the session wrote and a boot reports.
pub(crate) fn push_faults<H: Threads + Wait + Sync>(
    rt: &H,
    alloc: Global,
    session: &Session,
    expected: &Expected,
    from: usize,
    in_part: bool,
    answer: &mut Answer,
) -> Result<(), AllocError> {
    let first = expected.calls(from);
    let all = expected.all_calls();
    for call in first..all {
        let disk = failing(alloc, call, in_part)?;
        if let Some(report) = unexplained(rt, alloc, session, expected, call, disk)? {
            answer.push_number(call.saturating_sub(first));
            answer.push(" faults, but not ");
            push_call(session, expected, call, answer);
            push_lines(report.as_str(), answer);
            return Ok(());
        }
    }
    answer.push_number(all.saturating_sub(first));
    answer.push(" faults");
    Ok(())
}

// A disk whose call of this number fails, counted from 0.
fn failing(alloc: Global, call: u64, in_part: bool) -> Result<FailDisk<MemDisk>, AllocError> {
    let disk = MemDisk::new(alloc, CAPACITY, LOG)?;
    Ok(FailDisk::failing(disk, call.saturating_add(1), in_part))
}

// What a session on this disk, whose call of this number fails, has written and a boot then reports, where that isn't explained.
fn unexplained<H: Threads + Wait + Sync>(
    rt: &H,
    alloc: Global,
    session: &Session,
    expected: &Expected,
    call: u64,
    disk: FailDisk<MemDisk>,
) -> Result<Option<String>, AllocError> {
    let lines = session.lines(alloc, session.commands.len())?;
    let (disk, mut text) = run(rt, alloc, disk, lines.as_str())?;
    let answered = expected.answered(text.as_str());
    let rest = text.strip_prefix(expected.written(answered)).unwrap_or("");
    let left = session.commands.as_slice().get(answered..).unwrap_or(&[]);
    let is_answered = answered == expected.command_of(call) && is_device_then_dead(rest, left);
    let (_, boot) = run(rt, alloc, disk, BOOT)?;
    if is_answered && expected.explains(answered, boot.as_str()) {
        return Ok(None);
    }
    text.push_str(boot.as_str())?;
    Ok(Some(text))
}

// Whether the first of these commands is answered Device and no other, and each after it Dead up to a boot.
fn is_device_then_dead(text: &str, commands: &[String]) -> bool {
    let mut lines = text.lines();
    let mut first = lines.next().unwrap_or("");
    if is_installed(first, commands) {
        // its boot is answered after it
        first = lines.next().unwrap_or("");
    }
    if !is_device(first) {
        return false;
    }
    for command in commands.get(1..).unwrap_or(&[]) {
        if command.as_str() == "boot" {
            return !lines.any(is_device);
        }
        if lines.next().unwrap_or("") != "error handler 18 Dead" {
            return false;
        }
    }
    lines.next().is_none()
}

fn is_device(line: &str) -> bool {
    line == "error handler 16 Device" || line == "error boot 3 Device"
}

// Whether the first of these commands is an installation, and this reports that it is done.
fn is_installed(line: &str, commands: &[String]) -> bool {
    let installs = |command: &String| command.starts_with("install ");
    line.starts_with("ok ") && commands.first().is_some_and(installs)
}
