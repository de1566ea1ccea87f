//! The release of a `.rel` file.
ghost use Rattle.std.specs.Prelude.{◌≡◌, IfOk};
ghost use Rattle.erl_term.specs.Value.{value_of};
ghost use Rattle.erl_term.specs.Within.{IsWithin};
ghost use Rattle.rel_files.specs.Release.{release_of};
ghost use Rattle.rel_unpack.specs.Order.{Answers};
ghost use Rattle.rel_unpack.specs.Source.{FileSays};
ghost use Rattle.rel_unpack.specs.Release.{ReleaseAt, found_of, rel_form};

use crate::error::UnpackError;
use crate::source::{read_bytes, refusal_for};
use file_source::Files;
use rel_check::is_small;
use rel_files::{RelFile, read_rel_file};
use std::alloc::Global;

/// The release of the `.rel` file of a path. It has at most so many applications as `rel_check` says.
pub fn read_release<F: Files>(alloc: Global, files: &F, path: &str) -> Result<RelFile, UnpackError>
    ensures answer { Answers found_of (ReleaseAt (F.gives files.now) path.now) result }
    ensures within { IfOk result (λ file. IsWithin 65 (value_of file.term)) }
{
    let file = release_in(alloc, files, path)?;
    if is_small(&file.release) {
        Ok(file)
    } else {
        Err(UnpackError::TooMany)
    }
}

// Of as many applications as the file has.
fn release_in<F: Files>(alloc: Global, files: &F, path: &str) -> Result<RelFile, UnpackError>
    ensures answer { Answers found_of (FileSays rel_form (F.gives files.now) path.now) result }
    ensures within { IfOk result (λ file. IsWithin 65 (value_of file.term)) }
{
    let bytes = read_bytes(alloc, files, path)?;
    match read_rel_file(alloc, bytes.as_slice()) {
        Ok(file) => Ok(file),
        Err(fault) => Err(refusal_for(alloc, path, fault)),
    }
}
