//! Disks in memory: `rel_disk`.
use rel_disk::{DeviceFault, Disk, FailDisk, MemDisk, Pick, StopDisk};
use std::alloc::{AllocError, Global};
use text_cases::{Answer, first_word, number};

/// An empty disk of 65,536 bytes with a log of 262,144.
pub(crate) fn new_disk(alloc: Global) -> Result<MemDisk, AllocError> {
    MemDisk::new(alloc, 65_536, 262_144)
}

/// Appends what each call of a disk answers to which a text is written.
pub(crate) fn push_disk(alloc: Global, text: &[u8], answer: &mut Answer) {
    match new_disk(alloc) {
        Ok(mut disk) => push_calls(alloc, &mut disk, text, answer),
        Err(_) => answer.note_no_memory(),
    }
}

/// Appends that of a disk whose call of a number fails. The text is the number and what is written.
pub(crate) fn push_failing(alloc: Global, words: &str, answer: &mut Answer) {
    let (call, text) = first_word(words);
    match new_disk(alloc) {
        Ok(disk) => {
            let mut disk = FailDisk::new(disk, number(call) as u64);
            push_calls(alloc, &mut disk, text.as_bytes(), answer);
        }
        Err(_) => answer.note_no_memory(),
    }
}

// Writes a text at the start of a disk, syncs, reads all, cuts it to half its length, and asks for its failures.
fn push_calls<D: Disk>(alloc: Global, disk: &mut D, text: &[u8], answer: &mut Answer) {
    answer.push("write_at ");
    push_done(disk.write_at(0, text), answer);
    answer.push(", sync ");
    push_done(disk.sync(), answer);
    answer.push(", read ");
    push_read(alloc, disk, answer);
    answer.push(", cut ");
    push_done(cut_to_half(disk), answer);
    answer.push(", read ");
    push_read(alloc, disk, answer);
    answer.push_counted(", failures ", disk.failures());
}

fn cut_to_half<D: Disk>(disk: &mut D) -> Result<(), DeviceFault> {
    let len = disk.len()?;
    disk.cut(len / 2)
}

fn push_done(done: Result<(), DeviceFault>, answer: &mut Answer) {
    match done {
        Ok(()) => answer.push("ok"),
        Err(fault) => answer.push_debug(&fault),
    }
}

/// Appends all that a disk reads, after its length.
pub(crate) fn push_read<D: Disk>(alloc: Global, disk: &mut D, answer: &mut Answer) {
    let Ok(len) = disk.len() else {
        return answer.push("no length");
    };
    let Ok(mut bytes) = vec![in alloc; 0; len as usize] else {
        return answer.note_no_memory();
    };
    match disk.read(0, &mut bytes) {
        Ok(()) => {
            answer.push_counted("", len);
            answer.push(" ");
            answer.push_bytes(&bytes);
        }
        Err(fault) => answer.push_debug(&fault),
    }
}

/// Appends the images of a disk that stops: as it was written, filled with dots, and cut to the smallest length. The text is how
/// many calls pass, what is written and synced, and what is written after it.
pub(crate) fn push_images(alloc: Global, words: &str, answer: &mut Answer) {
    answer.push("Kept ");
    push_image(alloc, words, Pick::Kept, answer);
    answer.push(", Filled ");
    push_image(alloc, words, Pick::Filled(b'.'), answer);
    answer.push(", Short ");
    push_image(alloc, words, Pick::Short, answer);
}

fn push_image(alloc: Global, words: &str, pick: Pick, answer: &mut Answer) {
    match stopped(alloc, words) {
        Ok(disk) => push_read(alloc, &mut disk.image(pick), answer),
        Err(_) => answer.note_no_memory(),
    }
}

// A disk to which both texts were written, as far as it took them.
fn stopped(alloc: Global, words: &str) -> Result<StopDisk, AllocError> {
    let (calls, words) = first_word(words);
    let (old, new) = first_word(words);
    let mut disk = StopDisk::new(new_disk(alloc)?, number(calls) as u64);
    let _ = disk.write_at(0, old.as_bytes());
    let _ = disk.sync();
    let _ = disk.write_at(0, new.as_bytes());
    Ok(disk)
}
