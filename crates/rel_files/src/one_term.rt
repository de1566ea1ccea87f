//! A file that is to have one term.
ghost use Rattle.std.specs.Prelude.{◌≡◌, ◌≢◌, ◌∷◌, [], IfOk, IfErr, MatchResult};
ghost use Rattle.erl_term.specs.Value.{value_of};
ghost use Rattle.erl_term.specs.Grammar.{Reading, Reads};
ghost use Rattle.erl_term.specs.Within.{IsWithin};
ghost use Rattle.rel_files.specs.OneTermFile.{HasTermAt, IsNoTermFault};

use crate::FileFault;
use erl_term::{Spanned, Term, read_terms};
use std::alloc::Global;

/// The one term of a file, and the place where it begins.
#[derive(Drop)]
pub struct FileTerm {
    pub term: Term,
    pub at: usize,
}

/// Reads a file that is to have one term.
pub fn read_one_term(alloc: Global, bytes: &[u8]) -> Result<FileTerm, FileFault>
    ensures says { IfOk result (λ file. HasTermAt bytes.now file.at (value_of file.term)) }
    ensures only { (r : Reading) → Reads 64 bytes.now (r ∷ []) →
        MatchResult result (λ file. (file.at ≡ r.from) × (value_of file.term ≡ r.term))
        (λ f. f ≡ FileFault.NoMemory) }
    ensures fault { IfErr result (λ f. f ≢ FileFault.NoMemory → IsNoTermFault bytes.now f) }

    // The term has short atoms, and few brackets are open at once when it is printed.
    ensures within { IfOk result (λ file. IsWithin 65 (value_of file.term)) }
{
    let mut terms = read_terms(alloc, bytes)?;
    let Some(last) = terms.pop() else {
        return Err(FileFault::BadShape(0));
    };
    if let Some(first) = terms.first() {
        return Err(FileFault::BadShape(first.from));
    }
    let Spanned { term, from: at, .. } = last;
    Ok(FileTerm { term, at })
}
