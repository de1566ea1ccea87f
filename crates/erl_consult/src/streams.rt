//! From a reader to a writer.
ghost use Rattle.std.specs.Prelude.{◌≡◌, ◌≢◌, ◌⊎◌, ◌<◌, ◌≤◌, length, OnOk, IfOk, IfErr, IsErrOf};
ghost use Rattle.std.specs.Io.KnownBytes.{IsAtEnd};
ghost use Rattle.counted_io.specs.Counted.{left_in, failed_reads, held_by, failed_writes};
ghost use Rattle.erl_consult.specs.Listing.{HasTaken, HasRead, HasListed, HasBegun, IsReported, TakesAtMost};
ghost use Rattle.counted_io.specs.Failures.{Reports};

use crate::error::ConsultError;
use crate::listing::listing;
use counted_io::{CountedReader, CountedWriter};
use erl_term::TermFault;
use std::alloc::Global;
use std::io::{Read, Write};

/// How many bytes a text has at most.
const MOST_BYTES: usize = 1_048_576;

/// How many bytes are asked for at once.
const ROOM: usize = 8_192;

/// Writes the listing of all that the reader gives.
pub fn consult<R: Read, W: Write>(
    alloc: Global,
    reader: &mut CountedReader<R>,
    writer: &mut CountedWriter<W>,
) -> Result<(), ConsultError>
    // The listing of the text was written, and nothing else.
    ensures listed { OnOk result (HasListed (left_in R.remaining reader.old)
        (held_by W.contents writer.old) (held_by W.contents writer.new)) }

    // A text is refused for its own length or fault.
    ensures refused { IfErr result (IsReported (left_in R.remaining reader.old)) }

    // Nothing was written then, and no write has failed.
    ensures unwritten { IfErr result (λ e. e ≢ ConsultError.Write → writer.new ≡ writer.old) }

    // Where a write failed, a prefix of the listing was written.
    ensures prefix { IsErrOf result ConsultError.Write → HasBegun (left_in R.remaining reader.old)
        (held_by W.contents writer.old) (held_by W.contents writer.new) }

    // A failure is reported exactly where one was. It is the only one, since nothing is tried again.
    ensures read { Reports ConsultError.Read result (failed_reads reader.old)
        (failed_reads reader.new) }
    ensures write { Reports ConsultError.Write result (failed_writes writer.old)
        (failed_writes writer.new) }

    // Of a longer text no byte after the first too many is read.
    ensures bounded { TakesAtMost 1048577 (left_in R.remaining reader.old)
        (left_in R.remaining reader.new) }
{
    let bytes = read_text(alloc, reader)?;
    let text = listing(alloc, &bytes)?;
    Ok(writer.write(text.as_bytes())?)
}

/// All that the reader gives, of which at most one byte more is taken than a text may have.
fn read_text<R: Read>(alloc: Global, reader: &mut CountedReader<R>) -> Result<Vec<u8>, ConsultError>
    ensures read { IfOk result (λ bytes. HasRead (left_in R.remaining reader.old) bytes.items) }
    ensures refused { IfErr result (IsReported (left_in R.remaining reader.old)) }
    ensures cause { Reports ConsultError.Read result (failed_reads reader.old)
        (failed_reads reader.new) }
    ensures bounded { TakesAtMost 1048577 (left_in R.remaining reader.old)
        (left_in R.remaining reader.new) }
    ensures unwritten { IfErr result (λ e. e ≢ ConsultError.Write) }
{
    let mut bytes = Vec::new(alloc);
    let mut room = vec![in alloc; 0u8; ROOM]?;
    while bytes.len() <= MOST_BYTES {
        let most = room.len().min(MOST_BYTES + 1 - bytes.len());
        if read_some(reader, &mut bytes, &mut room, most)? == 0 {
            return Ok(bytes);
        }
    }
    Err(ConsultError::TooLong)
}

/// Puts what one read gives at the end, at most so many bytes, and says how many came.
fn read_some<R: Read>(
    reader: &mut CountedReader<R>,
    bytes: &mut Vec<u8>,
    room: &mut [u8],
    most: usize,
) -> Result<usize, ConsultError>
    requires some { 0 < most }
    requires room { most ≤ length room.old }
    ensures read { IfOk result (λ count. HasTaken count (left_in R.remaining reader.old)
        (left_in R.remaining reader.new) bytes.old.items bytes.new.items) }
    ensures end { IfOk result (λ count. count ≡ 0 → IsAtEnd (left_in R.remaining reader.new)) }
    ensures bound { IfOk result (λ count. count ≤ most) }
    ensures error { IfErr result
        (λ e. (e ≡ ConsultError.Read) ⊎ (e ≡ ConsultError.Fault TermFault.NoMemory)) }
    ensures cause { Reports ConsultError.Read result (failed_reads reader.old)
        (failed_reads reader.new) }
    ensures bounded { TakesAtMost most (left_in R.remaining reader.old)
        (left_in R.remaining reader.new) }
{
    let count = reader.read(room, most)?;
    bytes.extend_from_slice(&room[..count])?;
    Ok(count)
}
