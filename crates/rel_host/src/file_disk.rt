// A disk over a file of the host.
ghost use Rattle.std.specs.Prelude.{◌≡◌, ◌+◌, ◌-◌, ◌≤◌, length, slice_range, false, IfOk, IsOk, IsErr, OnOk, OnErr};
ghost use Rattle.rel_disk.specs.Calls.{wrote, cut_to, synced, content, sync_count};
ghost use Rattle.rel_disk.specs.Damage.{Torn, Cut, Follows, Within};
ghost use Rattle.rel_disk.specs.ImageLaws.{content_is_image, counts_now, only_now};
ghost use Rattle.rel_disk.specs.Images.{Image, ImageSince};
ghost use Rattle.rel_disk.specs.Moments.{HasFailed};
ghost use Rattle.rel_host.specs.FileState.{IsOpened, IsReadAfterSync, GivesAfterSync, Does, Fails, FailsToSync, all_failures, broken};

use crate::disk_file::{DiskFile, DiskHost};
use rel_disk::{DeviceFault, Disk, MemDisk};
use std::alloc::Global;
use std::fmt::{self, Display, Formatter};
use std::io::ErrorKind;
use std::marker::Model;
use thiserror::Error;

/// The most bytes of the file.
const CAPACITY: usize = 67_108_864;

/// The bytes of the log of the disk in memory.
const LOG: usize = 134_217_728;

/// Why a file isn't opened as a disk.
#[derive(Clone, Copy, Debug, PartialEq, Eq, Error)]
pub enum OpenError {
    /// The file can't be opened or made, or is no file.
    CantOpen,
    /// The file is open as a disk, here or in another process, or it can't be locked.
    InUse,
    /// The file can't be read, or what is read can't be made durable.
    CantRead,
    /// The file has more than 67,108,864 bytes.
    TooLong,
    /// No memory was left, which says nothing of the file.
    NoMemory,
}

impl OpenError {
    // What is shown of it.
    fn text(self) -> &'static str {
        match self {
            OpenError::CantOpen => "the file can't be opened",
            OpenError::InUse => "the file is in use",
            OpenError::CantRead => "the file can't be read",
            OpenError::TooLong => "the file is too long",
            OpenError::NoMemory => "no memory was left",
        }
    }
}

impl Display for OpenError {
    fn fmt<W: fmt::Write>(&self, f: &mut Formatter<W>) -> fmt::Result {
        f.write_str(self.text())
    }
}

/// A disk over a file. Reads come from a disk in memory, which has the file's bytes. Sizes are in bytes.
///
/// A write and a cut are noted in memory first, so that the damage that a fault of the file leaves is among the images, and
/// then done on the file: one for which the memory has no room fails and doesn't touch it. A sync is done on the file first, and
/// fails too where the memory has no room to note it; it isn't counted then (`syncs`). A fault of the file is a `DeviceFault`,
/// and from then on every write, cut and sync fails. Reads still answer: they give what the memory has, which is one of the images.
///
/// No clause can name the bytes of the file itself. That it has what the memory has, and that a crash leaves of it one of
/// the images, is trusted. So it is a premise that bytes that were not written since the last sync stay over a crash, also
/// where bytes beside them in one sector were written.
#[derive(Drop)]
pub struct FileDisk<F> {
    file: F,
    memory: MemDisk,
    faults: u64,
    is_broken: bool,
}

// Clauses see the file, the disk in memory, the faults, and whether the file has failed.
impl<F> Model for FileDisk<F> {
    ghost use Rattle.rel_host.specs.FileState.{FileState};

    ghost Value = { FileState F };

    ghost view = { λ d. record {
      file = d.file;
      memory = d.memory;
      faults = d.faults;
      is_broken = d.is_broken;
    } };
}

impl<F: DiskFile + Drop> FileDisk<F> {
    /// Opens a file and reads it whole, once it and its folder are synced. A missing file is made empty. The file is locked as long
    /// as the disk is there, so a second opening is refused, also by another process.
    pub fn open<H: DiskHost<File = F>>(
        host: &H,
        alloc: Global,
        path: &str,
    ) -> Result<Self, OpenError>
        ensures opened { IfOk result IsOpened }
        ensures read { IfOk result (IsReadAfterSync F.did F.gave) }
        ensures kept { IsOk result → H.has_kept host.now path.now }
    {
        let mut file = open_locked(host, path)?;
        let bytes = read_file(alloc, &mut file)?;
        match MemDisk::with_bytes(alloc, &bytes, CAPACITY, LOG) {
            Ok(memory) => Ok(FileDisk::over(file, memory)),
            Err(_) => Err(OpenError::NoMemory),
        }
    }

    /// A disk over this file, of which the disk in memory reads the bytes.
    pub fn over(file: F, memory: MemDisk) -> Self
        ensures { result ≡ record {
          file = file;
          memory = memory;
          faults = 0;
          is_broken = false;
        } }
    {
        FileDisk {
            file,
            memory,
            faults: 0,
            is_broken: false,
        }
    }

    // Counts a fault of the file, after which the file isn't touched any more.
    fn fail(&mut self) -> Result<(), DeviceFault>
        ensures err { IsErr result }
        ensures failed { self.new ≡ broken self.old }
        ensures counted { all_failures self.old ≤ all_failures self.new }
        ensures cause { HasFailed (all_failures self.old) (all_failures self.new) }
    {
        self.is_broken = true;
        self.faults = self.faults.saturating_add(1);
        Err(DeviceFault)
    }
}

impl<F: DiskFile + Drop> Disk for FileDisk<F> {
    ghost seen = { λ d. content d.memory.first d.memory.calls };

    ghost may_leave = { λ d. Image d.memory.first d.memory.calls };

    ghost moment = { λ d. length d.memory.calls };

    ghost left_since = { λ d. ImageSince d.memory.first d.memory.calls };

    ghost syncs = { λ d. sync_count d.memory.calls };

    ghost failures = { all_failures };

    ghost reads_an_image = { λ d. content_is_image d.memory.first d.memory.calls };

    ghost counts_now = { λ d. counts_now d.memory.first d.memory.calls };

    ghost only_now = { λ d. only_now d.memory.first d.memory.calls };

    fn len(&mut self) -> Result<u64, DeviceFault>
        ensures value { result ≡ Ok (length (content self.old.memory.first self.old.memory.calls)) }
        ensures same { self.new ≡ self.old }
    {
        self.memory.len()
    }

    fn read(&mut self, at: u64, buf: &mut [u8]) -> Result<(), DeviceFault>
        requires { at + length buf.old
            ≤ length (content self.old.memory.first self.old.memory.calls) }
        ensures ok { IsOk result }
        ensures bytes { buf.new ≡ slice_range (content self.old.memory.first self.old.memory.calls)
            at (at + length buf.old) }
        ensures same { self.new ≡ self.old }
    {
        self.memory.read(at, buf)
    }

    fn write_at(&mut self, at: u64, bytes: &[u8]) -> Result<(), DeviceFault>
        requires { at ≤ length (content self.old.memory.first self.old.memory.calls) }
        ensures done { OnOk result (Does F.did (wrote at bytes.now) self.old self.new) }
        ensures failed { OnErr result (Fails F.failed (wrote at bytes.now) self.old self.new) }

        // As of every disk.
        ensures part { Torn at (length bytes.now)
            (content self.old.memory.first self.old.memory.calls)
            (content self.new.memory.first self.new.memory.calls) }
        ensures crash { Follows (Torn at (length bytes.now))
            (Image self.old.memory.first self.old.memory.calls)
            (Image self.new.memory.first self.new.memory.calls) }
        ensures counted { all_failures self.old ≤ all_failures self.new }
        ensures cause { IsErr result → HasFailed (all_failures self.old) (all_failures self.new) }
    {
        if self.is_broken {
            return self.fail();
        }
        self.memory.write_at(at, bytes)?;
        if self.file.write_all(at, bytes).is_err() {
            return self.fail();
        }
        Ok(())
    }

    fn cut(&mut self, len: u64) -> Result<(), DeviceFault>
        requires { len ≤ length (content self.old.memory.first self.old.memory.calls) }
        ensures done { OnOk result (Does F.did (cut_to len) self.old self.new) }
        ensures failed { OnErr result (Fails F.failed (cut_to len) self.old self.new) }

        // As of every disk.
        ensures part { Cut len (content self.old.memory.first self.old.memory.calls)
            (content self.new.memory.first self.new.memory.calls) }
        ensures crash { Follows (Cut len) (Image self.old.memory.first self.old.memory.calls)
            (Image self.new.memory.first self.new.memory.calls) }
        ensures counted { all_failures self.old ≤ all_failures self.new }
        ensures cause { IsErr result → HasFailed (all_failures self.old) (all_failures self.new) }
    {
        if self.is_broken {
            return self.fail();
        }
        self.memory.cut(len)?;
        if self.file.cut_to(len).is_err() {
            return self.fail();
        }
        Ok(())
    }

    fn sync(&mut self) -> Result<(), DeviceFault>
        ensures done { OnOk result (Does F.did synced self.old self.new) }
        ensures failed { OnErr result (FailsToSync F.did F.failed self.old self.new) }

        // As of every disk.
        ensures crash { Within (Image self.old.memory.first self.old.memory.calls)
            (Image self.new.memory.first self.new.memory.calls) }
        ensures counted { all_failures self.old ≤ all_failures self.new }
        ensures cause { IsErr result → HasFailed (all_failures self.old) (all_failures self.new) }
    {
        if self.is_broken || self.file.sync().is_err() {
            return self.fail();
        }
        self.memory.sync()
    }

    fn failures(&self) -> u64 {
        self.memory.failures().saturating_add(self.faults)
    }
}

// Opens a file, or makes it, and locks it. A file outlives a crash once its folder is synced, also one that was there: the run that
// made it may have ended before that.
fn open_locked<H: DiskHost>(host: &H, path: &str) -> Result<H::File, OpenError>
    ensures { IsOk result → H.has_kept host.now path.now }
{
    let Ok(file) = host.open_or_make(path) else {
        return Err(OpenError::CantOpen);
    };
    if host.sync_folder_of(path).is_err() {
        return Err(OpenError::CantOpen);
    }
    if !file.lock() {
        return Err(OpenError::InUse);
    }
    Ok(file)
}

// The file's bytes, which a crash leaves.
fn read_file<F: DiskFile>(alloc: Global, file: &mut F) -> Result<Vec<u8>, OpenError>
    ensures short { IfOk result (λ bytes. length bytes.items ≤ 67108864) }
    ensures read { IfOk result
        (λ bytes. GivesAfterSync F.did F.gave bytes.items file.old file.new) }
{
    if file.sync().is_err() {
        return Err(OpenError::CantRead);
    }
    if file.is_longer_than(CAPACITY) {
        return Err(OpenError::TooLong);
    }
    match file.read_whole(alloc, CAPACITY) {
        Ok(Some(bytes)) => Ok(bytes),
        Ok(None) => Err(OpenError::TooLong),
        Err(e) if e.kind() == ErrorKind::OutOfMemory => Err(OpenError::NoMemory),
        Err(_) => Err(OpenError::CantRead),
    }
}
