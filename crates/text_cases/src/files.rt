//! Files that a case gives.
ghost use Rattle.std.specs.Prelude.{◌≤◌, IfOk, length};

use file_source::{Files, FilesError};
use std::alloc::Global;

/// The files of a case: a line for each, its path, a blank and its bytes. The bytes `unreadable` and `too large` stand for
/// a file that is such.
#[derive(Clone, Copy)]
pub struct CaseFiles<'a> {
    pub lines: &'a [u8],
}

impl<'a> Files for CaseFiles<'a> {
    ghost gives = { λ files path found. Unit {0} };

    fn read(&self, alloc: Global, path: &str) -> Result<Vec<u8>, FilesError> {
        for line in self.lines.split(|byte| *byte == b'\n') {
            if let Some(rest) = line.strip_prefix(path.as_bytes()) {
                if let Some((b' ', bytes)) = rest.split_first() {
                    return given(alloc, bytes);
                }
            }
        }
        Err(FilesError::Missing)
    }
}

fn given(alloc: Global, bytes: &[u8]) -> Result<Vec<u8>, FilesError>
    ensures { IfOk result (λ bytes. length bytes.items ≤ 1048576) }
{
    if bytes == b"unreadable".as_slice() {
        return Err(FilesError::Unreadable);
    }
    if bytes == b"too large".as_slice() || bytes.len() > 1_048_576 {
        return Err(FilesError::TooLarge);
    }
    match Vec::from_slice(alloc, bytes) {
        Ok(copy) => Ok(copy),
        Err(_) => Err(FilesError::NoMemory),
    }
}
