//! The one term that a record's body is.
ghost use Rattle.std.specs.Prelude.{◌≡◌, IfOk, IfErr, MatchResult};
ghost use Rattle.erl_term.specs.Value.{Value, value_of};
ghost use Rattle.erl_term.specs.OneTerm.{HasTerm, ReportsRecordFault};

use crate::reader::read;
use crate::term::Term;
use erl_number::TermFault;
use std::alloc::Global;

/// How many brackets may be open at once in a record: more than in a file, since records hold what files say.
pub const RECORD_DEPTH: usize = 72;

/// The one term of a text, which ends with a dot. Where the text has no term, a dot is missing at its end, and where it
/// has more than one, at the second.
pub fn read_record(alloc: Global, bytes: &[u8]) -> Result<Term, TermFault>
    ensures found { IfOk result (λ term. HasTerm 72 bytes.now (value_of term)) }
    ensures only { (v : Value) → HasTerm 72 bytes.now v
        → MatchResult result (λ term. value_of term ≡ v) (λ f. f ≡ TermFault.NoMemory) }
    ensures fault { IfErr result (ReportsRecordFault 72 bytes.now) }
{
    let mut terms = read(alloc, bytes, RECORD_DEPTH)?;
    if let Some(second) = terms.get(1) {
        return Err(TermFault::MissingDot(second.from));
    }
    match terms.pop() {
        Some(only) => Ok(only.term),
        None => Err(TermFault::MissingDot(bytes.len())),
    }
}
