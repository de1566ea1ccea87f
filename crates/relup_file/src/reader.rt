//! From a relup file to a relup.
ghost use Rattle.std.specs.Prelude.{◌≡◌, ◌≢◌, IfOk, IfErr, MatchResult};
ghost use Rattle.erl_term.specs.Value.{value_of};
ghost use Rattle.erl_term.specs.Within.{IsWithin};
ghost use Rattle.relup_file.specs.Relup.{RelupForm, relup_of};
ghost use Rattle.relup_file.specs.Form.{IsRelupTerm, IsRelup};
ghost use Rattle.rel_files.specs.OneTermFile.{HasFileTerm};
ghost use Rattle.relup_file.specs.File.{SaysRelup, IsTermFault, IsRelupFault};

use crate::entries::relup_in;
use crate::{Relup, RelupFault};
use erl_term::Term;
use rel_files::read_one_term;
use std::alloc::Global;

/// A relup file: its term, and the relup that this says.
#[derive(Drop)]
pub struct RelupFile {
    pub term: Term,
    pub relup: Relup,
}

/// Reads a relup file.
pub fn read_relup(alloc: Global, bytes: &[u8]) -> Result<Relup, RelupFault>
    ensures says { IfOk result (λ relup. SaysRelup bytes.now (relup_of relup)) }
    ensures only { (r : RelupForm) → SaysRelup bytes.now r →
        MatchResult result (λ relup. relup_of relup ≡ r) (λ f. f ≡ RelupFault.NoMemory) }
    ensures fault { IfErr result (λ f. f ≢ RelupFault.NoMemory → IsRelupFault bytes.now f) }

    // Its names are names, its versions are versions, and no script is empty.
    ensures fits { IfOk result (λ relup. IsRelup (relup_of relup)) }
{
    let file = read_relup_file(alloc, bytes)?;
    Ok(file.relup)
}

/// Reads a relup file, and keeps its term.
pub fn read_relup_file(alloc: Global, bytes: &[u8]) -> Result<RelupFile, RelupFault>
    ensures says { IfOk result (λ file. HasFileTerm bytes.now (value_of file.term)
        × IsRelupTerm (value_of file.term) (relup_of file.relup)) }
    ensures only { (r : RelupForm) → SaysRelup bytes.now r →
        MatchResult result (λ file. relup_of file.relup ≡ r) (λ f. f ≡ RelupFault.NoMemory) }
    ensures fault { IfErr result (λ f. f ≢ RelupFault.NoMemory → IsRelupFault bytes.now f) }
    ensures fits { IfOk result (λ file. IsRelup (relup_of file.relup)) }

    // The term has short atoms, and few brackets are open at once when it is printed.
    ensures within { IfOk result (λ file. IsWithin 65 (value_of file.term)) }
{
    let file = read_one_term(alloc, bytes)?;
    let relup = relup_of_term(alloc, &file.term)?;
    Ok(RelupFile {
        term: file.term,
        relup,
    })
}

/// The relup that a term says.
pub fn relup_of_term(alloc: Global, term: &Term) -> Result<Relup, RelupFault>
    ensures says { IfOk result (λ relup. IsRelupTerm (value_of term.now) (relup_of relup)) }
    ensures only { (r : RelupForm) → IsRelupTerm (value_of term.now) r →
        MatchResult result (λ relup. relup_of relup ≡ r) (λ f. f ≡ RelupFault.NoMemory) }
    ensures fault { IfErr result (λ f.
        f ≢ RelupFault.NoMemory → IsTermFault (value_of term.now) f) }
    ensures fits { IfOk result (λ relup. IsRelup (relup_of relup)) }
{
    relup_in(alloc, term)
}
