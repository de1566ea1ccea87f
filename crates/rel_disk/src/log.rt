// The log of a disk in memory: it keeps what the disk began with and each call, in bytes that are taken all at once.
ghost use Rattle.std.specs.Prelude.{◌≡◌, ◌+◌, ◌^◌, ◌<◌, ◌≤◌, ◌++◌, [], length, take, drop, vec_len, vec_capacity, IfOk, nat_le};
ghost use Rattle.std.specs.Int.{w64, from_be_bytes};
ghost use Rattle.rel_disk.specs.Calls.{wrote, cut_to, synced, content};
ghost use Rattle.rel_disk.specs.Kind.{kind_code};
ghost use Rattle.rel_disk.specs.LogBytes.{entry};
ghost use Rattle.rel_disk.specs.Picks.{is_written};

use std::alloc::{AllocError, Global};
use std::marker::Model;

/// What an entry costs beside the bytes that its call wrote or cut off.
const ENTRY: usize = 32;

/// How many of these it takes: a kind and two numbers.
const HEAD: usize = 17;

/// What a call did, as the first byte of its entry.
#[derive(Clone, Copy)]
enum Kind {
    Synced,
    Wrote,
    CutTo,
}

/// The calls of a disk in memory, after what it began with, in bytes whose room was taken with it.
#[derive(Drop)]
pub struct Log {
    bytes: Vec<u8>,
    // how many of them the disk began with
    start: usize,
    // how many of them there were after the last sync
    synced: usize,
    room: usize,
}

// Clauses see what the disk began with, the calls, newest first, and how many bytes are left.
impl Model for Log {
    ghost use Rattle.rel_disk.specs.LogState.{LogState};

    ghost Value = { LogState };

    ghost use Rattle.rel_disk.specs.LogBytes.{calls_of};
    ghost use Rattle.rel_disk.specs.LogState.{KeepsCalls};
    ghost use Rattle.std.specs.Prelude.{take, drop, vec_capacity};

    ghost view = { λ l. record {
      first = take l.start l.bytes.items;
      calls = calls_of (drop l.start l.bytes.items);
      room = l.room;
    } };

    ghost invariant = { λ l. KeepsCalls l.bytes.items l.start l.synced l.room
        (vec_capacity l.bytes) };
}

impl Log {
    ghost use Rattle.rel_disk.specs.LogState.{with_call};

    /// The log of a disk that begins with these bytes, with room for so many beside them, all taken at once.
    pub fn new(alloc: Global, first: &[u8], size: usize) -> Result<Self, AllocError>
        ensures { IfOk result (λ log. log ≡ record { first = first.now; calls = []; room = size }) }
    {
        let Some(all) = size.checked_add(first.len()) else {
            return Err(AllocError);
        };
        let mut bytes = Vec::with_capacity(alloc, all)?;
        append(&mut bytes, first);
        Ok(Log {
            bytes,
            start: first.len(),
            synced: first.len(),
            room: size,
        })
    }

    /// Begins anew, with these bytes and no call. What is left of the log stays.
    pub fn restart(&mut self, first: &[u8])
        requires { length first.now ≤ length (content self.old.first self.old.calls) }
        ensures { self.new ≡ record { first = first.now; calls = []; room = self.old.room } }
    {
        self.bytes.clear();
        append(&mut self.bytes, first);
        self.start = first.len();
        self.synced = first.len();
    }

    /// Whether a write since the last sync had this place in its range.
    pub fn is_written(&self, place: u64) -> bool
        ensures { result ≡ is_written place self.now.calls }
    {
        let entries = &self.bytes[self.synced..];
        let mut from = 0;
        while from < entries.len() {
            let at = number_at(entries, from + 1);
            let count = number_at(entries, from + 9);
            // a cut and a sync write no bytes
            if at <= place && place - at < count {
                return true;
            }
            from += HEAD + count as usize;
        }
        false
    }

    /// Whether there is room for a call that wrote or cut off this many bytes.
    pub fn has_room(&self, count: usize) -> bool
        ensures { result ≡ nat_le (32 + count) self.now.room }
    {
        ENTRY <= self.room && count <= self.room - ENTRY
    }

    /// Keeps a write and its bytes.
    pub fn keep_write(&mut self, at: u64, bytes: &[u8])
        requires { 32 + length bytes.now ≤ self.old.room }
        ensures { self.new ≡ with_call (wrote at bytes.now) (32 + length bytes.now) self.old }
    {
        append_entry(&mut self.bytes, Kind::Wrote, at, bytes);
        self.room -= ENTRY + bytes.len();
    }

    /// Keeps a cut to `len` bytes that cuts off `lost` of them.
    pub fn keep_cut(&mut self, len: u64, lost: usize)
        requires { 32 + lost ≤ self.old.room }
        ensures { self.new ≡ with_call (cut_to len) (32 + lost) self.old }
    {
        append_entry(&mut self.bytes, Kind::CutTo, len, &[]);
        self.room -= ENTRY + lost;
    }

    /// Keeps a sync.
    pub fn keep_sync(&mut self)
        requires { 32 ≤ self.old.room }
        ensures { self.new ≡ with_call synced 32 self.old }
    {
        append_entry(&mut self.bytes, Kind::Synced, 0, &[]);
        self.synced = self.bytes.len();
        self.room -= ENTRY;
    }
}

// An entry is its kind, two numbers of eight bytes and the bytes that were written.
fn append_entry(log: &mut Vec<u8>, kind: Kind, at: u64, bytes: &[u8])
    requires { vec_len log.old + (17 + length bytes.now) ≤ vec_capacity log.old }
    ensures items { log.new.items ≡ log.old.items ++ entry (kind_code kind) at bytes.now }
    ensures count { length bytes.now < 2 ^ 64 }
    ensures capacity { vec_capacity log.old ≤ vec_capacity log.new }
{
    let count = bytes.len() as u64;
    append(log, &[kind as u8]);
    append(log, &at.to_be_bytes());
    append(log, &count.to_be_bytes());
    append(log, bytes);
}

// The number of eight bytes that stands there, greatest first.
fn number_at(bytes: &[u8], at: usize) -> u64
    requires { at + 8 ≤ length bytes.now }
    ensures { result ≡ from_be_bytes w64 (take 8 (drop at bytes.now)) }
{
    let mut number = [0; 8];
    number.copy_from_slice(&bytes[at..at + 8]);
    u64::from_be_bytes(number)
}

/// Appends within the memory that was taken, so that it cannot fail.
pub fn append(v: &mut Vec<u8>, bytes: &[u8])
    requires { vec_len v.old + length bytes.now ≤ vec_capacity v.old }
    ensures items { v.new.items ≡ v.old.items ++ bytes.now }
    ensures len { vec_len v.new ≡ vec_len v.old + length bytes.now }
    ensures capacity { vec_capacity v.old ≤ vec_capacity v.new }
{
    let _ = v.extend_from_slice(bytes);
}
