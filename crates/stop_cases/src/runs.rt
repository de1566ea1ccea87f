//! Sessions, and what they write.
use counted_io::CountedWriter;
use rel_disk::Disk;
use rel_session::session;
use session_input::Input;
use std::alloc::{AllocError, Global};
use std::sync::Wait;
use std::thread::Threads;
use text_cases::CaseFiles;

/// The most bytes of a disk.
pub(crate) const CAPACITY: usize = 65_536;

/// The bytes of its log.
pub(crate) const LOG: usize = 4 * CAPACITY;

/// What is asked after a session: a boot, the releases, the start record, and what runs.
pub(crate) const BOOT: &str = "boot\nreleases\nstart\nprocs\nmodules\n";

/// The lines of a session.
#[derive(Drop)]
pub(crate) struct Session {
    /// The lines that give the session's files.
    pub(crate) files: String,
    /// The lines of the session's commands.
    pub(crate) commands: Vec<String>,
}

impl Session {
    /// The session of a text: lines parted by ` | `, and the commands after ` || `.
    pub(crate) fn of(alloc: Global, text: &str) -> Result<Session, AllocError> {
        let (files, commands) = text.split_once(" || ").unwrap_or(("", text));
        Ok(Session {
            files: lines_of(alloc, files)?,
            commands: commands_of(alloc, commands)?,
        })
    }

    /// Its lines with so many of its commands.
    pub(crate) fn lines(&self, alloc: Global, count: usize) -> Result<String, AllocError> {
        let mut lines = String::from_str(alloc, self.files.as_str())?;
        for command in self.commands.iter().take(count) {
            push_line(&mut lines, command)?;
        }
        Ok(lines)
    }
}

// The lines of a text that parts them by ` | `.
fn lines_of(alloc: Global, text: &str) -> Result<String, AllocError> {
    let mut lines = String::new(alloc);
    for line in text.split(" | ") {
        push_line(&mut lines, line)?;
    }
    Ok(lines)
}

fn commands_of(alloc: Global, text: &str) -> Result<Vec<String>, AllocError> {
    let mut commands = Vec::new(alloc);
    for command in text.split(" | ") {
        commands.push(String::from_str(alloc, command)?)?;
    }
    Ok(commands)
}

fn push_line(lines: &mut String, line: &str) -> Result<(), AllocError> {
    lines.push_str(line)?;
    lines.push('\n')
}

/// What a session of these lines writes, with the disk after it.
pub(crate) fn run<H: Threads + Wait + Sync, D: Disk + Drop>(
    rt: &H,
    alloc: Global,
    disk: D,
    lines: &str,
) -> Result<(D, String), AllocError> {
    let files = CaseFiles { lines: b"" };
    let mut written = Vec::new(alloc);
    let mut output = CountedWriter::new(&mut written);
    let Ok(mut input) = Input::new(alloc, lines.as_bytes()) else {
        return Err(AllocError);
    };
    let (disk, ended) = session(rt, alloc, disk, &files, &mut input, &mut output);
    drop(output);
    if ended.is_err() {
        return Err(AllocError);
    }
    let text = str::from_utf8(&written).unwrap_or("no text");
    Ok((disk, String::from_str(alloc, text)?))
}
