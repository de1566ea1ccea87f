//! A writer whose failures are counted.
ghost use Rattle.std.specs.Prelude.{◌≡◌, OnOk, OnErr};
ghost use Rattle.std.specs.Io.KnownBytes.{Appends};

use std::io::Write;
use thiserror::Error;

/// A write or a flush has failed, or a write took nothing. It isn't tried again.
#[derive(Clone, Copy, Debug, Error)]
#[error("a write failed")]
pub struct WriteFailed;

/// A writer whose failures are counted.
#[derive(Drop)]
pub struct CountedWriter<W> {
    writer: W,
    failures: u64,
}

impl<W: Write> CountedWriter<W> {
    ghost use Rattle.counted_io.specs.Failures.{Counts, HasRisen};
    ghost use Rattle.counted_io.specs.Counted.{writer_of, held_by, failed_writes};
    ghost use Rattle.counted_io.specs.Prefixes.{AppendsPrefix};

    /// A writer of which no write has failed yet.
    pub fn new(writer: W) -> CountedWriter<W>
        ensures writer { writer_of result ≡ writer }
        ensures failures { failed_writes result ≡ 0 }
    {
        CountedWriter {
            writer,
            failures: 0,
        }
    }

    /// Writes all these bytes, and has the writer pass them on. After an `Err` a prefix of them was written.
    pub fn write(&mut self, bytes: &[u8]) -> Result<(), WriteFailed>
        ensures written { OnOk result (Appends (held_by W.contents self.old)
            (held_by W.contents self.new) bytes.now) }
        ensures prefix { OnErr result (AppendsPrefix (held_by W.contents self.old)
            (held_by W.contents self.new) bytes.now) }
        ensures counted { Counts result (failed_writes self.old) (failed_writes self.new) }
    {
        let mut rest = bytes;
        while !rest.is_empty() {
            match self.writer.write(rest) {
                Ok(count) if count > 0 => rest = &rest[count..],
                _ => return Err(self.failure()),
            }
        }
        match self.writer.flush() {
            Ok(()) => Ok(()),
            Err(_) => Err(self.failure()),
        }
    }

    /// Counts a failure.
    fn failure(&mut self) -> WriteFailed
        ensures writer { self.new.writer ≡ self.old.writer }
        ensures counted { HasRisen (failed_writes self.old) (failed_writes self.new) }
    {
        self.failures = self.failures.saturating_add(1);
        WriteFailed
    }
}
