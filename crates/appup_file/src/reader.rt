//! From an appup file to an appup.
ghost use Rattle.std.specs.Prelude.{◌≡◌, ◌≢◌, IfOk, IfErr, MatchResult};
ghost use Rattle.erl_term.specs.Value.{value_of};
ghost use Rattle.appup_file.specs.Instruction.{AppupForm, appup_of};
ghost use Rattle.appup_file.specs.File.{TermSaysAppup, IsTermFault, SaysAppup, IsAppupFault};

use crate::entries::appup_in;
use crate::{Appup, AppupFault};
use erl_term::Term;
use rel_files::read_one_term;
use std::alloc::Global;

/// Reads an appup file.
pub fn read_appup(alloc: Global, bytes: &[u8]) -> Result<Appup, AppupFault>
    ensures says { IfOk result (λ appup. SaysAppup bytes.now (appup_of appup)) }
    ensures only { (a : AppupForm) → SaysAppup bytes.now a →
        MatchResult result (λ appup. appup_of appup ≡ a) (λ f. f ≡ AppupFault.NoMemory) }
    ensures fault { IfErr result (λ f. f ≢ AppupFault.NoMemory → IsAppupFault bytes.now f) }
{
    let file = read_one_term(alloc, bytes)?;
    appup_of_term(alloc, &file.term)
}

/// The appup that a term says.
pub fn appup_of_term(alloc: Global, term: &Term) -> Result<Appup, AppupFault>
    ensures says { IfOk result (λ appup. TermSaysAppup (value_of term.now) (appup_of appup)) }
    ensures only { (a : AppupForm) → TermSaysAppup (value_of term.now) a →
        MatchResult result (λ appup. appup_of appup ≡ a) (λ f. f ≡ AppupFault.NoMemory) }
    ensures fault { IfErr result (λ f.
        f ≢ AppupFault.NoMemory → IsTermFault (value_of term.now) f) }
{
    match appup_in(alloc, term)? {
        Some(appup) => Ok(appup),
        None => Err(AppupFault::BadShape),
    }
}
