//! Disks with one byte that isn't what was written.
use crate::disks::case_disk;
use crate::nodes::is_explained;
use crate::sessions::{follow, patch};
use rel_disk::{Disk, MemDisk};
use std::alloc::{AllocError, Global};
use std::sync::Wait;
use text_cases::{Answer, first_word};

/// Appends for how many places it is so, up to the first for which it isn't, that the disk which
/// these sessions make, with this byte there, is booted to three releases at most or is refused for
/// what it holds; and how many places there are.
pub(crate) fn push_damaged<H: Wait>(rt: &H, alloc: Global, text: &str, answer: &mut Answer) {
    let (byte, sessions) = first_word(text);
    match explained_with(rt, alloc, sessions, byte) {
        Ok((explained, len)) => {
            answer.push("explained ");
            answer.push_number(explained);
            answer.push(" of ");
            answer.push_number(len);
        }
        Err(_) => answer.note_no_memory(),
    }
}

// The disk that these sessions make.
fn made<H: Wait>(rt: &H, alloc: Global, sessions: &str) -> Result<MemDisk, AllocError> {
    let mut answer = Answer::new(alloc);
    let disk = follow(rt, alloc, case_disk(alloc)?, sessions, &mut answer);
    match answer.finish() {
        Ok(_) => Ok(disk),
        Err(error) => Err(error),
    }
}

// How many of its places are explained with this byte, up to the first that isn't, and how many
// there are.
fn explained_with<H: Wait>(
    rt: &H,
    alloc: Global,
    sessions: &str,
    byte: &str,
) -> Result<(u64, u64), AllocError> {
    let len = made(rt, alloc, sessions)?.len().unwrap_or(0);
    for at in 0..len {
        let mut disk = made(rt, alloc, sessions)?;
        let is_patched = patch(&mut disk, at, byte).is_ok();
        if !is_explained(alloc, disk) || !is_patched {
            return Ok((at, len));
        }
    }
    Ok((len, len))
}
