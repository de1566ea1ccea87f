//! The bytes of a source's files.
ghost use Rattle.std.specs.Prelude.{◌≡◌, ◌≢◌, None, true, false, MatchResult};
ghost use Rattle.rel_files.specs.Fault.{fault_of};
ghost use Rattle.rel_unpack.specs.Order.{Answers};
ghost use Rattle.rel_unpack.specs.Refusal.{refusal_of, is_missing};
ghost use Rattle.rel_unpack.specs.Refusal.Refusal.{bad_file};
ghost use Rattle.rel_unpack.specs.Refusal.Trouble.{faulty};
ghost use Rattle.rel_unpack.specs.Source.{HasBytes};

use crate::error::{FileTrouble, UnpackError};
use file_source::{Files, FilesError};
use rel_files::FileFault;
use std::alloc::Global;

/// The bytes of the file of a path.
pub fn read_bytes<F: Files>(alloc: Global, files: &F, path: &str) -> Result<Vec<u8>, UnpackError>
    ensures { Answers (λ bytes. bytes.items) (HasBytes (F.gives files.now) path.now) result }
{
    match files.read(alloc, path) {
        Ok(bytes) => Ok(bytes),
        Err(FilesError::Missing) => Err(UnpackError::MissingFile(String::from_str(alloc, path)?)),
        Err(FilesError::Unreadable) => Err(UnpackError::BadFile(
            String::from_str(alloc, path)?,
            FileTrouble::Unreadable,
        )),
        Err(FilesError::TooLarge) => Err(UnpackError::TooMany),
        Err(FilesError::NoMemory) => Err(UnpackError::NoMemory),
    }
}

// The refusal that reports a file's fault, where memory isn't what was wanting.
pub(crate) fn refusal_for(alloc: Global, path: &str, fault: FileFault) -> UnpackError
    ensures { result ≢ UnpackError.NoMemory → (fault ≢ FileFault.NoMemory)
        × (refusal_of result ≡ bad_file path.now (faulty (fault_of fault))) }
{
    match fault {
        FileFault::NoMemory => UnpackError::NoMemory,
        fault => match String::from_str(alloc, path) {
            Ok(path) => UnpackError::BadFile(path, FileTrouble::Fault(fault)),
            Err(_) => UnpackError::NoMemory,
        },
    }
}

/// None where the file is missing; any other error stays.
pub fn unless_missing<T: Drop>(error: UnpackError) -> Result<Option<T>, UnpackError>
    ensures { MatchResult result
        (λ found. (found ≡ None) × (is_missing (refusal_of error) ≡ true))
        (λ e. (e ≡ error) × (is_missing (refusal_of error) ≡ false)) }
{
    match error {
        UnpackError::MissingFile(_) => Ok(None),
        other => Err(other),
    }
}
