// All bytes of a reader, within a limit.
ghost use Rattle.std.specs.Prelude.{◌<◌, ◌≤◌, ◌^◌, ◌≡◌, length, IfOk, IfSome, MatchOption};

use std::alloc::Global;
use std::io;
use std::io::Read;

// All bytes that the reader has, or `None` where it has more than `limit`. It takes at most one byte more.
pub(crate) fn read_within<R: Read + Drop>(
    alloc: Global,
    reader: R,
    limit: usize,
) -> io::Result<Option<Vec<u8>>>
    requires { limit < 2 ^ 32 }
    ensures whole { IfOk result (λ found. IfSome (R.remaining reader) (λ bytes.
        MatchOption found (limit < length bytes) (λ v. v.items ≡ bytes))) }
    ensures short { IfOk result (λ found. IfSome found (λ v. length v.items ≤ limit)) }
{
    let mut bytes = Vec::new(alloc);
    reader.take(limit as u64 + 1).read_to_end(&mut bytes)?;
    if bytes.len() > limit {
        return Ok(None);
    }
    Ok(Some(bytes))
}
