//! Texts into terms.
ghost use Rattle.std.specs.Prelude.{List, IfOk, IfErr};
ghost use Rattle.erl_term.specs.Grammar.{Reading, Reads};
ghost use Rattle.erl_term.specs.Answers.{readings, IsOnly, ReportsFault};
ghost use Rattle.erl_term.specs.Machine.{reading_of};
ghost use Rattle.erl_term.specs.Views.{GivesTerms};

use crate::parser::Parser;
use crate::term::Spanned;
use erl_number::{TermFault, Text};
use erl_token::next_item;
use std::alloc::Global;

/// How many brackets may be open at once in a term.
pub const MAX_DEPTH: usize = 64;

/// The terms of a text, each of which ends with a dot. A place counts bytes from 0.
pub fn read_terms(alloc: Global, bytes: &[u8]) -> Result<Vec<Spanned>, TermFault>
    ensures found { IfOk result (λ v. Reads 64 bytes.now (readings v)) }
    ensures only { (rs : List Reading) → Reads 64 bytes.now rs → IsOnly rs result }
    ensures fault { IfErr result (ReportsFault 64 bytes.now) }
{
    read(alloc, bytes, MAX_DEPTH)
}

/// The terms of a text in which at most so many brackets are open at once.
pub fn read(alloc: Global, bytes: &[u8], limit: usize) -> Result<Vec<Spanned>, TermFault>
    ensures { GivesTerms result (reading_of limit bytes.now) }
{
    let text = Text::of(bytes);
    let mut parser = Parser::new(alloc, limit);
    let mut at = 0;
    while let Some(item) = next_item(alloc, text, at)? {
        at = item.to;
        parser.take(alloc, &item)?;
    }
    parser.finish(bytes.len())
}
