//! A host whose files note each call, and of which one call fails.
use crate::faults::push_steps;
use crate::sessions::push_session_on;
use rel_disk::Disk;
use rel_host::{FileDisk, FileLock};
use std::alloc::{Allocator, Global};
use std::cell::{Cell, RefCell};
use std::fs::{File, Files, Metadata, OpenFile, OpenOptions};
use std::io;
use std::io::{ErrorKind, Read, Seek, SeekFrom, Write};
use std::os::unix::fs::FileExt;
use std::sync::Wait;
use std::thread::Threads;
use text_cases::{Answer, first_word};

/// Appends what comes of `CALL NAME STEPS`: a disk is opened over the file NAME and does the steps, and the call of this number
/// fails, or none where it is 0. The calls of the file and of its folder stand there in turn, and an `!` after the one that
/// fails; then what the opening and the steps answered.
pub(crate) fn push_watched(host: &HostRuntime, words: &str, answer: &mut Answer) {
    let (call, words) = first_word(words);
    let (name, steps) = first_word(words);
    let watch = Watch::new(host.alloc(), call.parse().unwrap_or(0));
    let watched = WatchedHost {
        host,
        watch: &watch,
    };
    let mut answered = Answer::new(host.alloc());
    match FileDisk::open(&watched, host.alloc(), name) {
        Ok(mut disk) => {
            answered.push("opened, ");
            push_steps(&mut disk, steps, &mut answered);
            answered.push_number(disk.failures());
            answered.push(" failures");
        }
        Err(error) => answered.push_debug(&error),
    }
    push_whole(watch.calls.into_inner(), answer);
    answer.push("then ");
    push_whole(answered, answer);
}

/// Appends what a session of `CALL NAME LINES` writes whose disk is over the file NAME, of which the call of this number fails, or
/// none where it is 0. The lines are parted by ` | `.
pub(crate) fn push_session_over<H: Threads + Wait + Sync>(
    rt: &H,
    host: &HostRuntime,
    words: &str,
    answer: &mut Answer,
) {
    let (call, words) = first_word(words);
    let (name, lines) = first_word(words);
    let watch = Watch::new(host.alloc(), call.parse().unwrap_or(0));
    let watched = WatchedHost {
        host,
        watch: &watch,
    };
    match FileDisk::open(&watched, host.alloc(), name) {
        Ok(disk) => push_session_on(rt, host.alloc(), disk, lines, answer),
        Err(error) => answer.push_debug(&error),
    }
}

fn push_whole(part: Answer, answer: &mut Answer) {
    match part.finish() {
        Ok(text) => answer.push(text.as_str()),
        Err(_) => answer.note_no_memory(),
    }
}

/// The calls so far, and how many are left up to the one that fails. Reads in a row are one call.
#[derive(Drop)]
struct Watch {
    calls: RefCell<Answer>,
    left: Cell<u64>,
    opened: Cell<u64>,
    is_reading: Cell<bool>,
}

impl Watch {
    fn new(alloc: Global, call: u64) -> Watch {
        Watch {
            calls: RefCell::new(Answer::new(alloc)),
            left: Cell::new(call),
            opened: Cell::new(0),
            is_reading: Cell::new(false),
        }
    }

    // Notes a call, and says whether it is the one that fails.
    fn call(&self, what: &str, number: Option<u64>, whose: &str) -> io::Result<()> {
        let left = self.left.get();
        self.left.set(left.saturating_sub(1));
        self.is_reading.set(what == "read");
        if let Ok(mut calls) = self.calls.try_borrow_mut() {
            calls.push(what);
            if let Some(number) = number {
                calls.push_counted(" ", number);
            }
            calls.push_after(" ", whose);
            calls.push(if left == 1 { "!, " } else { ", " });
        }
        if left == 1 {
            return Err(io::Error::from(ErrorKind::Other));
        }
        Ok(())
    }

    // Notes a read, unless the last call was one.
    fn read(&self, whose: &str) -> io::Result<()> {
        if self.is_reading.get() {
            return Ok(());
        }
        self.call("read", None, whose)
    }
}

/// The host's files, watched.
#[derive(Clone, Copy)]
struct WatchedHost<'w> {
    host: &'w HostRuntime,
    watch: &'w Watch,
}

/// A file that notes its calls: the first that is opened is the disk's, and the next one is its folder.
#[derive(Drop)]
struct WatchedFile<'w> {
    file: File,
    name: &'w str,
    watch: &'w Watch,
}

impl<'w> Files for WatchedHost<'w> {
    type File = WatchedFile<'w>;

    type Dir = io::Empty;

    fn open_file(&self, how: &OpenOptions, path: &str) -> io::Result<WatchedFile<'w>> {
        let opened = self.watch.opened.get();
        self.watch.opened.set(opened.saturating_add(1));
        let name = if opened == 0 { "file" } else { "folder" };
        self.watch.call("open", None, name)?;
        let file = self.host.open_file(how, path)?;
        let watch = self.watch;
        Ok(WatchedFile { file, name, watch })
    }

    fn open_dir(&self, _path: &str) -> io::Result<io::Empty> {
        Err(io::Error::from(ErrorKind::Unsupported))
    }

    fn metadata(&self, path: &str) -> io::Result<Metadata> {
        self.host.metadata(path)
    }

    fn symlink_metadata(&self, path: &str) -> io::Result<Metadata> {
        self.host.symlink_metadata(path)
    }

    fn copy(&self, _from: &str, _to: &str) -> io::Result<u64> {
        Err(io::Error::from(ErrorKind::Unsupported))
    }

    fn rename(&self, _from: &str, _to: &str) -> io::Result<()> {
        Err(io::Error::from(ErrorKind::Unsupported))
    }

    fn remove_file(&self, _path: &str) -> io::Result<()> {
        Err(io::Error::from(ErrorKind::Unsupported))
    }

    fn create_dir(&self, _path: &str) -> io::Result<()> {
        Err(io::Error::from(ErrorKind::Unsupported))
    }

    fn remove_dir(&self, _path: &str) -> io::Result<()> {
        Err(io::Error::from(ErrorKind::Unsupported))
    }

    fn remove_dir_all<B: Allocator>(&self, _alloc: B, _path: &str) -> io::Result<()> {
        Err(io::Error::from(ErrorKind::Unsupported))
    }
}

impl FileLock for WatchedFile<'_> {
    fn try_lock_file(&self) -> bool {
        self.watch.call("lock", None, self.name).is_ok() && self.file.try_lock_file()
    }
}

impl OpenFile for WatchedFile<'_> {
    fn metadata(&self) -> io::Result<Metadata> {
        self.watch.call("look at", None, self.name)?;
        self.file.metadata()
    }

    fn set_len(&self, size: u64) -> io::Result<()> {
        self.watch.call("cut to", Some(size), self.name)?;
        self.file.set_len(size)
    }

    fn sync_all(&self) -> io::Result<()> {
        self.watch.call("sync", None, self.name)?;
        self.file.sync_all()
    }

    fn sync_data(&self) -> io::Result<()> {
        self.watch.call("sync the data of", None, self.name)?;
        self.file.sync_data()
    }
}

impl FileExt for WatchedFile<'_> {
    fn read_at(&self, buf: &mut [u8], offset: u64) -> io::Result<usize> {
        self.watch.call("read at", Some(offset), self.name)?;
        self.file.read_at(buf, offset)
    }

    fn write_at(&self, buf: &[u8], offset: u64) -> io::Result<usize> {
        self.watch.call("write at", Some(offset), self.name)?;
        self.file.write_at(buf, offset)
    }
}

impl Read for WatchedFile<'_> {
    fn read(&mut self, buf: &mut [u8]) -> io::Result<usize> {
        self.watch.read(self.name)?;
        self.file.read(buf)
    }
}

impl Write for WatchedFile<'_> {
    fn write(&mut self, _buf: &[u8]) -> io::Result<usize> {
        Err(io::Error::from(ErrorKind::Unsupported))
    }

    fn flush(&mut self) -> io::Result<()> {
        Ok(())
    }
}

impl Seek for WatchedFile<'_> {
    fn seek(&mut self, _to: SeekFrom) -> io::Result<u64> {
        Err(io::Error::from(ErrorKind::Unsupported))
    }
}
