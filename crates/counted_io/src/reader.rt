//! A reader whose failures are counted.
ghost use Rattle.std.specs.Prelude.{◌≡◌, ◌<◌, ◌≤◌, length, take, IfOk, OnErr};
ghost use Rattle.std.specs.Io.KnownBytes.{Consumes, IsAtEnd, Keeps};

use std::io::Read;
use thiserror::Error;

/// A read has failed. It isn't tried again.
#[derive(Clone, Copy, Debug, Error)]
#[error("a read failed")]
pub struct ReadFailed;

/// A reader whose failures are counted.
#[derive(Drop)]
pub struct CountedReader<R> {
    reader: R,
    failures: u64,
}

impl<R: Read> CountedReader<R> {
    ghost use Rattle.counted_io.specs.Failures.{Counts, HasRisen};
    ghost use Rattle.counted_io.specs.Counted.{reader_of, left_in, failed_reads};

    /// A reader of which no read has failed yet.
    pub fn new(reader: R) -> CountedReader<R>
        ensures reader { reader_of result ≡ reader }
        ensures failures { failed_reads result ≡ 0 }
    {
        CountedReader {
            reader,
            failures: 0,
        }
    }

    /// Reads once, at most so many bytes, to the start of the room. There are none only at the end.
    pub fn read(&mut self, room: &mut [u8], most: usize) -> Result<usize, ReadFailed>
        requires some { 0 < most }
        requires room { most ≤ length room.old }
        ensures read { IfOk result (λ count. Consumes (left_in R.remaining self.old)
            (left_in R.remaining self.new) (take count room.new)) }
        ensures end { IfOk result (λ count. count ≡ 0 → IsAtEnd (left_in R.remaining self.new)) }
        ensures bound { IfOk result (λ count. count ≤ most) }
        ensures kept { OnErr result
            (Keeps (left_in R.remaining self.old) (left_in R.remaining self.new)) }
        ensures counted { Counts result (failed_reads self.old) (failed_reads self.new) }
    {
        match self.reader.read(&mut room[..most]) {
            Ok(count) => Ok(count),
            Err(_) => Err(self.failure()),
        }
    }

    /// Counts a failure.
    fn failure(&mut self) -> ReadFailed
        ensures reader { self.new.reader ≡ self.old.reader }
        ensures counted { HasRisen (failed_reads self.old) (failed_reads self.new) }
    {
        self.failures = self.failures.saturating_add(1);
        ReadFailed
    }
}
