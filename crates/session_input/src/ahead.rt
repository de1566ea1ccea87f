//! Bytes that were read ahead.
ghost use Rattle.std.specs.Prelude.{◌≡◌, ◌+◌, ◌<◌, ◌≤◌, false, [], ◌∷◌, length, IsTrue, ◌↔◌, IfOk, OnOk, OnErr, MatchOption};
ghost use Rattle.std.specs.Io.KnownBytes.{Consumes, IsAtEnd, Keeps};

use counted_io::{CountedReader, ReadFailed};
use std::alloc::{AllocError, Global};
use std::io::Read;
use std::marker::Model;

/// How many bytes are asked for at once.
const ROOM: usize = 8192;

/// How many bytes of an input are taken at most.
pub const MOST_BYTES: usize = 16_777_216;

/// The bytes that were taken from a reader and not used yet, how many were taken in all, and whether the end was read.
#[derive(Drop)]
pub struct Ahead {
    room: Vec<u8>,
    start: usize,
    end: usize,
    taken: usize,
    is_over: bool,
}

impl Model for Ahead {
    ghost use Rattle.session_input.specs.Ahead.{Pending};

    ghost Value = { Pending };

    ghost use Rattle.session_input.specs.AheadView.{pending_of, IsWithin};

    ghost view = { pending_of };

    ghost invariant = { IsWithin };
}

impl Ahead {
    ghost use Rattle.counted_io.specs.Counted.{left_in, failed_reads};
    ghost use Rattle.counted_io.specs.Failures.{Counts};
    ghost use Rattle.session_input.specs.Input.{most_bytes};

    /// Nothing was taken yet.
    pub fn new(alloc: Global) -> Result<Ahead, AllocError>
        ensures { IfOk result (λ a. (a.bytes ≡ []) × (a.taken ≡ 0) × (a.is_over ≡ false)) }
    {
        let room = vec![in alloc; 0u8; ROOM]?;
        Ok(Ahead {
            room,
            start: 0,
            end: 0,
            taken: 0,
            is_over: false,
        })
    }

    /// Whether as many bytes were taken as may be.
    pub fn is_spent(&self) -> bool
        ensures spent { IsTrue result ↔ (self.now.taken ≡ most_bytes) }
        ensures before_end { IsTrue result → self.now.is_over ≡ false }
        ensures bounded { self.now.taken ≤ most_bytes }
    {
        self.taken == MOST_BYTES
    }

    /// Whether the end was read.
    pub fn is_over(&self) -> bool
        ensures over { result ≡ self.now.is_over }
    {
        self.is_over
    }

    /// The first byte that was not used yet. It counts as used then.
    pub fn pop(&mut self) -> Option<u8>
        ensures byte { MatchOption result ((self.old.bytes ≡ []) × (self.new ≡ self.old))
            (λ b. self.old.bytes ≡ b ∷ self.new.bytes) }
        ensures taken { self.new.taken ≡ self.old.taken }
        ensures over { self.new.is_over ≡ self.old.is_over }
        ensures bounded { self.new.taken ≤ most_bytes }
    {
        if self.start == self.end {
            return None;
        }
        let byte = self.room[self.start];
        self.start += 1;
        Some(byte)
    }

    /// Takes what one read gives, and never more than may still be taken.
    pub fn fill<R: Read>(&mut self, reader: &mut CountedReader<R>) -> Result<(), ReadFailed>
        requires used { self.old.bytes ≡ [] }
        requires unspent { self.old.taken < most_bytes }
        requires before_end { self.old.is_over ≡ false }
        ensures read { OnOk result (Consumes (left_in R.remaining reader.old)
            (left_in R.remaining reader.new) self.new.bytes) }
        ensures end { OnOk result (self.new.bytes ≡ [] → IsAtEnd (left_in R.remaining reader.new)) }
        ensures over { OnOk result (IsTrue self.new.is_over ↔ (self.new.bytes ≡ [])) }
        ensures taken { OnOk result (self.new.taken ≡ self.old.taken + length self.new.bytes) }
        ensures nothing_taken { OnErr result ((self.new.bytes ≡ [])
            × (self.new.taken ≡ self.old.taken) × (self.new.is_over ≡ false)) }
        ensures kept { OnErr result
            (Keeps (left_in R.remaining reader.old) (left_in R.remaining reader.new)) }
        ensures bounded { self.new.taken ≤ most_bytes }
        ensures counted { Counts result (failed_reads reader.old) (failed_reads reader.new) }
    {
        let most = self.room.len().min(MOST_BYTES - self.taken);
        let count = reader.read(&mut self.room, most)?;
        self.start = 0;
        self.end = count;
        self.taken += count;
        self.is_over = count == 0;
        Ok(())
    }
}
