//! The relup beside the `.rel` file of a release.
ghost use Rattle.std.specs.Prelude.{◌≡◌, ◌≢◌, IfOk, IfSome};
ghost use Rattle.std.specs.Option.{option_map};
ghost use Rattle.erl_term.specs.Value.{value_of};
ghost use Rattle.erl_term.specs.Within.{IsWithin};
ghost use Rattle.rel_unpack.specs.Order.{Answers};
ghost use Rattle.rel_unpack.specs.Refusal.{refusal_of};
ghost use Rattle.rel_unpack.specs.Refusal.Refusal.{bad_file};
ghost use Rattle.rel_unpack.specs.Refusal.Trouble.{faulty_relup};
ghost use Rattle.rel_unpack.specs.Relup.{RelupAt, RelupIn, mismatch_refusal, relup_form, relup_found_of};
ghost use Rattle.rel_unpack.specs.Source.{FileSays};

use crate::error::{FileTrouble, UnpackError};
use crate::paths::relup_path;
use crate::source::{read_bytes, unless_missing};
use file_source::Files;
use rel_check::{RelupMismatch, check_relup};
use relup_file::{RelupFault, RelupFile, read_relup_file};
use std::alloc::Global;

/// The relup of a release of this version, from the file beside its `.rel` file, which has this path. Without a file it has
/// none.
pub fn read_relup_beside<F: Files>(
    alloc: Global,
    files: &F,
    path: &str,
    vsn: &str,
) -> Result<Option<RelupFile>, UnpackError>
    ensures answer { Answers (λ relup. option_map relup_found_of relup)
        (RelupAt (F.gives files.now) path.now vsn.now) result }
    ensures within { IfOk result
        (λ relup. IfSome relup (λ file. IsWithin 65 (value_of file.term))) }
{
    let beside = relup_path(alloc, path)?;
    match relup_in(alloc, files, beside.as_str(), vsn) {
        Ok(file) => Ok(Some(file)),
        Err(error) => unless_missing(error),
    }
}

// The relup that a file has for a release of this version.
fn relup_in<F: Files>(
    alloc: Global,
    files: &F,
    path: &str,
    vsn: &str,
) -> Result<RelupFile, UnpackError>
    ensures answer { Answers relup_found_of
        (RelupIn (F.gives files.now) path.now vsn.now) result }
    ensures within { IfOk result (λ file. IsWithin 65 (value_of file.term)) }
{
    let file = relup_of_file(alloc, files, path)?;
    match check_relup(vsn, &file.relup) {
        Ok(()) => Ok(file),
        Err(mismatch) => Err(refusal_for_mismatch(alloc, path, mismatch)),
    }
}

// The refusal of a release that can't have this relup.
fn refusal_for_mismatch(alloc: Global, path: &str, mismatch: RelupMismatch) -> UnpackError
    ensures { result ≢ UnpackError.NoMemory
        → refusal_of result ≡ mismatch_refusal path.now mismatch }
{
    match mismatch {
        RelupMismatch::TooMany => UnpackError::TooMany,
        RelupMismatch::OtherVersion => match String::from_str(alloc, path) {
            Ok(path) => UnpackError::VsnMismatch(path),
            Err(_) => UnpackError::NoMemory,
        },
    }
}

// What a relup file says, for whatever release.
fn relup_of_file<F: Files>(alloc: Global, files: &F, path: &str) -> Result<RelupFile, UnpackError>
    ensures answer { Answers relup_found_of
        (FileSays relup_form (F.gives files.now) path.now) result }
    ensures within { IfOk result (λ file. IsWithin 65 (value_of file.term)) }
{
    let bytes = read_bytes(alloc, files, path)?;
    match read_relup_file(alloc, bytes.as_slice()) {
        Ok(file) => Ok(file),
        Err(fault) => Err(refusal_for_fault(alloc, path, fault)),
    }
}

// The refusal that reports a relup's fault, where memory isn't what was wanting.
fn refusal_for_fault(alloc: Global, path: &str, fault: RelupFault) -> UnpackError
    ensures { result ≢ UnpackError.NoMemory → (fault ≢ RelupFault.NoMemory)
        × (refusal_of result ≡ bad_file path.now (faulty_relup fault)) }
{
    match fault {
        RelupFault::NoMemory => UnpackError::NoMemory,
        fault => match String::from_str(alloc, path) {
            Ok(path) => UnpackError::BadFile(path, FileTrouble::Relup(fault)),
            Err(_) => UnpackError::NoMemory,
        },
    }
}
