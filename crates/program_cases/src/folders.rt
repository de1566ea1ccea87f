//! Files, and what is read below a folder.
use file_source::{Files, FilesError};
use rel_host::RootFiles;
use std::os::unix::fs::symlink;
use std::{fs, io};
use text_cases::{Answer, first_word, number};

/// Makes a folder, a link or a file.
pub(crate) fn push_made(host: &HostRuntime, kind: &str, words: &str, answer: &mut Answer) {
    let (name, text) = first_word(words);
    let made = match kind {
        "folder" => fs::create_dir(host, name),
        "link" => symlink(host, text, name),
        "zeros" => write_zeros(host, name, number(text) as u64),
        _ => fs::write(host, name, text),
    };
    answer.push(if made.is_ok() { "made" } else { "not made" });
}

fn write_zeros(host: &HostRuntime, name: &str, count: u64) -> io::Result<()> {
    fs::create(host, name)?.set_len(count)
}

/// Appends what stands in a file.
pub(crate) fn push_contents(host: &HostRuntime, name: &str, answer: &mut Answer) {
    match fs::read(host, name) {
        Ok(bytes) => answer.push_bytes(&bytes),
        Err(_) => answer.push("no file"),
    }
}

/// Appends what a read of `ROOT PATH` gives.
pub(crate) fn push_read_below(host: &HostRuntime, words: &str, answer: &mut Answer) {
    let (name, path) = first_word(words);
    let mut root = String::new(host.alloc());
    answer.note(root.push_str(name));
    push_read(host, Some(root), path, answer);
}

/// Appends what a read below this folder gives.
pub(crate) fn push_read(host: &HostRuntime, root: Option<String>, path: &str, answer: &mut Answer) {
    let read = RootFiles::new(host, root).read(host.alloc(), path);
    push_found(&read, answer);
}

fn push_found(read: &Result<Vec<u8>, FilesError>, answer: &mut Answer) {
    match read {
        Ok(bytes) if bytes.len() < 8 => answer.push_bytes(bytes),
        Ok(bytes) => {
            answer.push_number(bytes.len() as u64);
            answer.push(" bytes");
        }
        Err(error) => answer.push_shown(error),
    }
}
