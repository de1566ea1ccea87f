//! What a disk over a file does once the file has failed.
use crate::disks::{push_all, shorten};
use rel_disk::{DeviceFault, Disk, MemDisk};
use rel_host::FileDisk;
use std::fs::{File, OpenOptions};
use std::io;
use text_cases::{Answer, first_word};

/// Appends what each step of `HOW NAME STEPS` answers, the failures then, and what a read gives. The disk reads `abc`, and has
/// room for four bytes.
pub(crate) fn push_faults(host: &HostRuntime, words: &str, answer: &mut Answer) {
    let (how, words) = first_word(words);
    let (name, steps) = first_word(words);
    match disk_over(host, how, name) {
        Some(mut disk) => {
            push_steps(&mut disk, steps, answer);
            answer.push_number(disk.failures());
            answer.push(" failures, ");
            push_all(host.alloc(), &mut disk, answer);
        }
        None => answer.push("not opened"),
    }
}

fn disk_over(host: &HostRuntime, how: &str, name: &str) -> Option<FileDisk<File>> {
    let file = opened(host, how, name).ok()?;
    let memory = MemDisk::with_bytes(host.alloc(), b"abc", 4, 1024).ok()?;
    Some(FileDisk::over(file, memory))
}

fn opened(host: &HostRuntime, how: &str, name: &str) -> io::Result<File> {
    OpenOptions::new()
        .read(how != "fills")
        .write(how != "reads")
        .open(host, name)
}

/// Appends what each of these steps answers.
pub(crate) fn push_steps<D: Disk>(disk: &mut D, steps: &str, answer: &mut Answer) {
    for name in steps.split(' ') {
        let done = step(disk, name).is_ok();
        answer.push_after(name, if done { " ok, " } else { " failed, " });
    }
}

// `write` writes an X at 0, `long` five of them, `cut` cuts to one byte, and `sync` syncs.
fn step<D: Disk>(disk: &mut D, name: &str) -> Result<(), DeviceFault> {
    match name {
        "write" => disk.write_at(0, b"X"),
        "long" => disk.write_at(0, b"XXXXX"),
        "cut" => shorten(disk, 1),
        _ => disk.sync(),
    }
}
