//! From a `.rel` file to a release.
ghost use Rattle.std.specs.Prelude.{◌≡◌, ◌≢◌, IfOk, IfErr, MatchResult};
ghost use Rattle.erl_term.specs.Value.{value_of};
ghost use Rattle.erl_term.specs.Within.{IsWithin};
ghost use Rattle.rel_files.specs.Release.{Release, release_of};
ghost use Rattle.rel_files.specs.File.{IsReleaseTerm, IsTermFault, SaysRelease, IsRelFault};
ghost use Rattle.rel_files.specs.OneTermFile.{HasFileTerm};

use crate::draft::Draft;
use crate::duplicates::first_twice;
use crate::one_term::read_one_term;
use crate::{FileFault, Rel};
use erl_term::Term;
use std::alloc::Global;

/// A `.rel` file: its term, and the release that this describes.
#[derive(Drop)]
pub struct RelFile {
    pub term: Term,
    pub release: Rel,
}

/// Reads a `.rel` file.
pub fn read_rel(alloc: Global, bytes: &[u8]) -> Result<Rel, FileFault>
    ensures says { IfOk result (λ rel. SaysRelease bytes.now (release_of rel)) }
    ensures only { (r : Release) → SaysRelease bytes.now r →
        MatchResult result (λ rel. release_of rel ≡ r) (λ f. f ≡ FileFault.NoMemory) }
    ensures fault { IfErr result (λ f. f ≢ FileFault.NoMemory → IsRelFault bytes.now f) }
{
    let file = read_rel_file(alloc, bytes)?;
    Ok(file.release)
}

/// Reads a `.rel` file, and keeps its term.
pub fn read_rel_file(alloc: Global, bytes: &[u8]) -> Result<RelFile, FileFault>
    ensures says { IfOk result (λ file. HasFileTerm bytes.now (value_of file.term)
        × IsReleaseTerm (value_of file.term) (release_of file.release)) }
    ensures only { (r : Release) → SaysRelease bytes.now r →
        MatchResult result (λ file. release_of file.release ≡ r) (λ f. f ≡ FileFault.NoMemory) }
    ensures fault { IfErr result (λ f. f ≢ FileFault.NoMemory → IsRelFault bytes.now f) }

    // The term has short atoms, and few brackets are open at once when it is printed.
    ensures within { IfOk result (λ file. IsWithin 65 (value_of file.term)) }
{
    let file = read_one_term(alloc, bytes)?;
    let release = rel_of_term(alloc, &file.term, file.at)?;
    Ok(RelFile {
        term: file.term,
        release,
    })
}

/// The release that a term describes. `at` is where the term begins, and so the place of a BadShape.
pub fn rel_of_term(alloc: Global, term: &Term, at: usize) -> Result<Rel, FileFault>
    ensures says { IfOk result (λ rel. IsReleaseTerm (value_of term.now) (release_of rel)) }
    ensures only { (r : Release) → IsReleaseTerm (value_of term.now) r →
        MatchResult result (λ rel. release_of rel ≡ r) (λ f. f ≡ FileFault.NoMemory) }
    ensures fault { IfErr result (λ f.
        f ≢ FileFault.NoMemory → IsTermFault (value_of term.now) at f) }
{
    let Some(draft) = Draft::read(alloc, term)? else {
        return Err(FileFault::BadShape(at));
    };
    if let Some(name) = first_twice(alloc, draft.apps.as_slice())? {
        return Err(FileFault::Duplicate(String::from_str(alloc, name)?));
    }
    match draft.release(alloc)? {
        Some(release) => Ok(release),
        None => Err(FileFault::BadVersion),
    }
}
