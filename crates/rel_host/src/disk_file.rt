// The files of a host, as a disk over a file uses them.
ghost use Rattle.std.specs.Prelude.{List, ℕ, ◌<◌, ◌≤◌, ◌^◌, length, IfOk, IfSome, OnOk, OnErr};
ghost use Rattle.rel_disk.specs.Calls.{Call, wrote, cut_to, synced};

use crate::OpenError;
use crate::readers::read_within;
use std::alloc::Global;
use std::fs::{self, File, Files, OpenFile, OpenOptions};
use std::io;
use std::io::{ErrorKind, Read};
use std::os::unix::fs::FileExt;

/// A file in which a disk keeps its bytes. Offsets and lengths are in bytes.
///
/// What its ghosts mean is up to each kind of file, and code that is generic in the file learns them from the calls alone. So
/// where a contract over every such file says that a call was done, the body has done it.
pub trait DiskFile {
    ghost use Rattle.rel_disk.specs.Calls.{Call, wrote, cut_to, synced};

    /// This call was done on the file, and has led from the one state to the other.
    ghost did: { Call → Self → Self → Type 0 };

    /// A read of the whole file gave these bytes, and has led from the one state to the other.
    ghost gave: { List ℕ → Self → Self → Type 0 };

    /// A call of the file has failed, and has led from the one state to the other.
    ghost failed: { Self → Self → Type 0 };

    /// Locks the file for as long as it is open, and returns whether it could: nobody else has it locked.
    fn lock(&self) -> bool;

    /// Whether the host reports more bytes of it than these.
    fn is_longer_than(&self, limit: usize) -> bool;

    /// All its bytes, or `None` where it has more than `limit`.
    fn read_whole(&mut self, alloc: Global, limit: usize) -> io::Result<Option<Vec<u8>>>
        requires { limit < 2 ^ 32 }
        ensures gave { IfOk result (λ found. IfSome found (λ v. gave v.items self.old self.new)) }
        ensures short { IfOk result (λ found. IfSome found (λ v. length v.items ≤ limit)) };

    /// Writes all these bytes at an offset.
    fn write_all(&mut self, at: u64, bytes: &[u8]) -> io::Result<()>
        ensures done { OnOk result (did (wrote at bytes.now) self.old self.new) }
        ensures failed { OnErr result (failed self.old self.new) };

    /// Cuts the file to a length.
    fn cut_to(&mut self, len: u64) -> io::Result<()>
        ensures done { OnOk result (did (cut_to len) self.old self.new) }
        ensures failed { OnErr result (failed self.old self.new) };

    /// Makes its bytes and its length outlive a crash.
    fn sync(&mut self) -> io::Result<()>
        ensures done { OnOk result (did synced self.old self.new) }
        ensures failed { OnErr result (failed self.old self.new) };
}

/// A host that has such files.
pub trait DiskHost {
    /// A file that is open for reads and writes.
    type File: DiskFile + Drop;

    /// The folder of the file of this path has been synced, so that a file that was made there outlives a crash.
    ghost has_kept: { Self → List ℕ → Type 0 };

    /// Opens a file, or makes it. What is no file is refused.
    fn open_or_make(&self, path: &str) -> io::Result<Self::File>;

    /// Syncs the folder of a file.
    fn sync_folder_of(&self, path: &str) -> io::Result<()>
        ensures kept { OnOk result (has_kept self.now path.now) };
}

/// A lock on a file, which ends when the file is closed.
pub trait FileLock {
    /// Takes it, and returns whether nobody else has it.
    fn try_lock_file(&self) -> bool;
}

impl FileLock for File {
    fn try_lock_file(&self) -> bool {
        self.try_lock().is_ok()
    }
}

/// A file of the host, of which no clause can say what it holds.
impl<F: Read + OpenFile + FileExt + FileLock> DiskFile for F {
    ghost did = { λ call before after. Unit {0} };

    ghost gave = { λ bytes before after. Unit {0} };

    ghost failed = { λ before after. Unit {0} };

    fn lock(&self) -> bool {
        self.try_lock_file()
    }

    fn is_longer_than(&self, limit: usize) -> bool {
        match self.metadata() {
            Ok(found) => found.len() > limit as u64,
            Err(_) => false,
        }
    }

    fn read_whole(&mut self, alloc: Global, limit: usize) -> io::Result<Option<Vec<u8>>> {
        read_within(alloc, self, limit)
    }

    fn write_all(&mut self, at: u64, bytes: &[u8]) -> io::Result<()> {
        self.write_all_at(bytes, at)
    }

    fn cut_to(&mut self, len: u64) -> io::Result<()> {
        self.set_len(len)
    }

    fn sync(&mut self) -> io::Result<()> {
        self.sync_all()
    }
}

/// The files of the host's file system.
impl<H: Files> DiskHost for H
where
    H::File: DiskFile + OpenFile + Drop,
{
    type File = H::File;

    ghost has_kept = { λ host path. Unit {0} };

    fn open_or_make(&self, path: &str) -> io::Result<H::File> {
        let file = OpenOptions::new()
            .read(true)
            .write(true)
            .create(true)
            .open(self, path)?;
        if !file.metadata()?.is_file() {
            return Err(io::Error::from(ErrorKind::InvalidInput));
        }
        Ok(file)
    }

    fn sync_folder_of(&self, path: &str) -> io::Result<()> {
        fs::open(self, folder_of(path))?.sync_all()
    }
}

// The folder of a file.
fn folder_of(path: &str) -> &str {
    match path.rsplit_once('/') {
        None => ".",
        Some(("", _)) => "/",
        Some((folder, _)) => folder,
    }
}
