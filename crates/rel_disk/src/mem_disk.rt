// A disk in memory, which may tear as any disk may. Its log keeps each call, so that it knows what a crash
// might have left at each past moment.
ghost use Rattle.std.specs.Prelude.{◌≡◌, ◌+◌, ◌-◌, ◌≤◌, ◌↔◌, [], length, slice_range, vec_len, vec_capacity, IfOk, IsOk, IsErr, OnOk, OnErr};
ghost use Rattle.rel_disk.specs.Calls.{wrote, cut_to, synced, content, sync_count};
ghost use Rattle.rel_disk.specs.Damage.{overwritten, Torn, Cut, Follows, Within};
ghost use Rattle.rel_disk.specs.ImageLaws.{content_is_image, counts_now, only_now};
ghost use Rattle.rel_disk.specs.Images.{Image, ImageSince};
ghost use Rattle.rel_disk.specs.MemState.{HasRoomFor, after_call, after_fault};
ghost use Rattle.rel_disk.specs.Moments.{HasFailed};
ghost use Rattle.rel_disk.specs.Picks.{IsFilled, IsLeft};

use crate::log::{Log, append};
use crate::{DeviceFault, Disk, Pick};
use std::alloc::{AllocError, Global};
use std::marker::Model;

/// A disk in memory. Sizes are in bytes.
///
/// A write past the capacity fails and does nothing, and so does a call for which the log has no room. A write, a cut
/// and a sync take 32 bytes of the log, and as many more as they write or cut off.
#[derive(Drop)]
pub struct MemDisk {
    bytes: Vec<u8>,
    // what it began with, and each call
    log: Log,
    // the smallest length since the last sync
    smallest: usize,
    capacity: usize,
    failures: u64,
}

// Clauses see what it began with, the calls, the capacity, the log's room and the failures.
impl Model for MemDisk {
    ghost use Rattle.rel_disk.specs.MemState.{MemState};

    ghost Value = { MemState };

    ghost use Rattle.rel_disk.specs.MemState.{HoldsContent};
    ghost use Rattle.std.specs.Prelude.{vec_capacity};

    ghost view = { λ d. record {
      first = d.log.first;
      calls = d.log.calls;
      capacity = d.capacity;
      room = d.log.room;
      failures = d.failures;
    } };

    ghost invariant = { λ d. HoldsContent d.bytes.items d.log.first d.log.calls
        d.smallest d.capacity (vec_capacity d.bytes) };
}

impl MemDisk {
    /// An empty disk that holds at most `capacity` bytes, and whose log holds `log` bytes.
    /// It takes its memory here, all at once.
    pub fn new(alloc: Global, capacity: usize, log: usize) -> Result<Self, AllocError>
        ensures { IfOk result (λ disk. disk ≡ record {
          first = [];
          calls = [];
          capacity = capacity;
          room = log;
          failures = 0;
        }) }
    {
        MemDisk::with_bytes(alloc, &[], capacity, log)
    }

    /// A disk that begins with these bytes, as after a sync: a crash leaves them.
    pub fn with_bytes(
        alloc: Global,
        bytes: &[u8],
        capacity: usize,
        log: usize,
    ) -> Result<Self, AllocError>
        requires { length bytes.now ≤ capacity }
        ensures { IfOk result (λ disk. disk ≡ record {
          first = bytes.now;
          calls = [];
          capacity = capacity;
          room = log;
          failures = 0;
        }) }
    {
        let mut content = Vec::with_capacity(alloc, capacity)?;
        append(&mut content, bytes);
        Ok(MemDisk {
            bytes: content,
            log: Log::new(alloc, bytes, log)?,
            smallest: bytes.len(),
            capacity,
            failures: 0,
        })
    }

    /// A disk that begins with what a crash now leaves, by this pick. It has done no call and counts no failure, and holds as many
    /// bytes. Its log has the room that was left.
    pub fn image(self, pick: Pick) -> MemDisk
        ensures may_leave { Image self.first self.calls (content result.first result.calls) }
        ensures left { IsLeft pick self.first self.calls result.first }
        ensures fresh { result ≡ record {
          first = result.first;
          calls = [];
          capacity = self.capacity;
          room = self.room;
          failures = 0;
        } }
    {
        let mut disk = self;
        match pick {
            Pick::Kept => {}
            Pick::Filled(byte) => fill(&disk.log, &mut disk.bytes, byte),
            Pick::Short => disk.bytes.truncate(disk.smallest),
        }
        disk.log.restart(&disk.bytes);
        disk.smallest = disk.bytes.len();
        disk.failures = 0;
        disk
    }

    // Refuses a call for which there is no room.
    fn fail(&mut self) -> Result<(), DeviceFault>
        ensures err { IsErr result }
        ensures failed { self.new ≡ after_fault self.old }
        ensures counted { self.old.failures ≤ self.new.failures }
        ensures cause { HasFailed self.old.failures self.new.failures }
    {
        self.failures = self.failures.saturating_add(1);
        Err(DeviceFault)
    }
}

impl Disk for MemDisk {
    ghost seen = { λ d. content d.first d.calls };

    ghost may_leave = { λ d. Image d.first d.calls };

    ghost moment = { λ d. length d.calls };

    ghost left_since = { λ d. ImageSince d.first d.calls };

    ghost syncs = { λ d. sync_count d.calls };

    ghost failures = { λ d. d.failures };

    ghost reads_an_image = { λ d. content_is_image d.first d.calls };

    ghost counts_now = { λ d. counts_now d.first d.calls };

    ghost only_now = { λ d. only_now d.first d.calls };

    fn len(&mut self) -> Result<u64, DeviceFault>
        ensures value { result ≡ Ok (length (content self.old.first self.old.calls)) }
        ensures same { self.new ≡ self.old }
    {
        Ok(self.bytes.len() as u64)
    }

    fn read(&mut self, at: u64, buf: &mut [u8]) -> Result<(), DeviceFault>
        requires { at + length buf.old ≤ length (content self.old.first self.old.calls) }
        ensures ok { IsOk result }
        ensures bytes { buf.new
            ≡ slice_range (content self.old.first self.old.calls) at (at + length buf.old) }
        ensures same { self.new ≡ self.old }
    {
        let from = at as usize;
        buf.copy_from_slice(&self.bytes[from..][..buf.len()]);
        Ok(())
    }

    fn write_at(&mut self, at: u64, bytes: &[u8]) -> Result<(), DeviceFault>
        requires { at ≤ length (content self.old.first self.old.calls) }
        ensures room { IsOk result ↔ HasRoomFor self.old (wrote at bytes.now) }
        ensures done { OnOk result (self.new ≡ after_call (wrote at bytes.now) self.old) }
        ensures failed { OnErr result (self.new ≡ after_fault self.old) }

        // As of every disk.
        ensures part { Torn at (length bytes.now) (content self.old.first self.old.calls)
            (content self.new.first self.new.calls) }
        ensures crash { Follows (Torn at (length bytes.now)) (Image self.old.first self.old.calls)
            (Image self.new.first self.new.calls) }
        ensures counted { self.old.failures ≤ self.new.failures }
        ensures cause { IsErr result → HasFailed self.old.failures self.new.failures }
    {
        let from = at as usize;
        if bytes.len() > self.capacity - from || !self.log.has_room(bytes.len()) {
            return self.fail();
        }
        self.log.keep_write(at, bytes);
        overwrite(&mut self.bytes, from, bytes);
        self.smallest = self.bytes.len().min(self.smallest);
        Ok(())
    }

    fn cut(&mut self, len: u64) -> Result<(), DeviceFault>
        requires { len ≤ length (content self.old.first self.old.calls) }
        ensures room { IsOk result ↔ HasRoomFor self.old (cut_to len) }
        ensures done { OnOk result (self.new ≡ after_call (cut_to len) self.old) }
        ensures failed { OnErr result (self.new ≡ after_fault self.old) }

        // As of every disk.
        ensures part { Cut len (content self.old.first self.old.calls)
            (content self.new.first self.new.calls) }
        ensures crash { Follows (Cut len) (Image self.old.first self.old.calls)
            (Image self.new.first self.new.calls) }
        ensures counted { self.old.failures ≤ self.new.failures }
        ensures cause { IsErr result → HasFailed self.old.failures self.new.failures }
    {
        let lost = self.bytes.len() - len as usize;
        if !self.log.has_room(lost) {
            return self.fail();
        }
        self.log.keep_cut(len, lost);
        self.bytes.truncate(len as usize);
        self.smallest = self.bytes.len().min(self.smallest);
        Ok(())
    }

    fn sync(&mut self) -> Result<(), DeviceFault>
        ensures room { IsOk result ↔ HasRoomFor self.old synced }
        ensures done { OnOk result (self.new ≡ after_call synced self.old) }
        ensures failed { OnErr result (self.new ≡ after_fault self.old) }

        // As of every disk.
        ensures crash { Within (Image self.old.first self.old.calls)
            (Image self.new.first self.new.calls) }
        ensures counted { self.old.failures ≤ self.new.failures }
        ensures cause { IsErr result → HasFailed self.old.failures self.new.failures }
    {
        if !self.log.has_room(0) {
            return self.fail();
        }
        self.log.keep_sync();
        self.smallest = self.bytes.len();
        Ok(())
    }

    fn failures(&self) -> u64 {
        self.failures
    }
}

// Writes over what is there, and past the end within the memory that was taken.
fn overwrite(old: &mut Vec<u8>, at: usize, bytes: &[u8])
    requires within { at ≤ vec_len old.old }
    requires room { at + length bytes.now ≤ vec_capacity old.old }
    ensures items { old.new.items ≡ overwritten at bytes.now old.old.items }
    ensures capacity { vec_capacity old.old ≤ vec_capacity old.new }
{
    let inside = bytes.len().min(old.len() - at);
    overwrite_part(old, at, &bytes[..inside]);
    append(old, &bytes[inside..]);
}

fn overwrite_part(old: &mut [u8], at: usize, bytes: &[u8])
    requires { at + length bytes.now ≤ length old.old }
    ensures { old.new ≡ overwritten at bytes.now old.old }
{
    old[at..at + bytes.len()].copy_from_slice(bytes);
}

// Puts the byte wherever something was written since the last sync.
fn fill(log: &Log, bytes: &mut [u8], byte: u8)
    ensures { IsFilled byte log.now.calls bytes.old bytes.new }
{
    for at in 0..bytes.len() {
        if log.is_written(at as u64) {
            bytes[at] = byte;
        }
    }
}
