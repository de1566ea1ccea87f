//! From a relup to the text of its file.
ghost use Rattle.std.specs.Prelude.{◌≡◌, ◌++◌, IfOk, codes, map, string_bytes};
ghost use Rattle.erl_term.specs.Printing.{text_of};
ghost use Rattle.erl_term.specs.Value.{value_of};
ghost use Rattle.erl_term.specs.Within.{IsWithin};
ghost use Rattle.rel_files.specs.Terms.{list_of};
ghost use Rattle.relup_instruction.specs.Instruction.{script_of};
ghost use Rattle.relup_instruction.specs.Form.{instruction_term};
ghost use Rattle.relup_file.specs.Relup.{entry_of, relup_of};
ghost use Rattle.relup_file.specs.Form.{entry_term, relup_term, IsRelup};
ghost use Rattle.relup_file.specs.File.{SaysRelup};

use crate::{Relup, RelupEntry};
use erl_term::{Term, print};
use rel_files::terms::{text_term, triple_term};
use relup_instruction::{Instr, instruction_term};
use std::alloc::{AllocError, Global};

/// The text of a relup's file: its term, with a dot and no blanks.
pub fn print_relup(alloc: Global, relup: &Relup) -> Result<String, AllocError>
    ensures printed { IfOk result (λ text.
        string_bytes text ≡ text_of (relup_term (relup_of relup.now)) ++ codes ".") }

    // What a file can say, within the limits of a reader, is read back.
    ensures reads_back { IfOk result (λ text. IsRelup (relup_of relup.now)
        → IsWithin 64 (relup_term (relup_of relup.now))
        → SaysRelup (string_bytes text) (relup_of relup.now)) }
{
    let term = relup_term(alloc, relup)?;
    let mut text = print(alloc, &term)?;
    text.push_str(".")?;
    Ok(text)
}

/// The term that says a relup.
pub fn relup_term(alloc: Global, relup: &Relup) -> Result<Term, AllocError>
    ensures { IfOk result (λ t. value_of t ≡ relup_term (relup_of relup.now)) }
{
    let vsn = text_term(alloc, relup.vsn.as_str())?;
    let ups = entries_term(alloc, &relup.ups)?;
    let downs = entries_term(alloc, &relup.downs)?;
    triple_term(alloc, vsn, ups, downs)
}

fn entries_term(alloc: Global, entries: &[RelupEntry]) -> Result<Term, AllocError>
    ensures { IfOk result (λ t.
        value_of t ≡ list_of (map entry_term (map entry_of entries.now))) }
{
    let mut terms = Vec::with_capacity(alloc, entries.len())?;
    for entry in entries {
        terms.push(entry_term(alloc, entry)?)?;
    }
    Ok(Term::List(terms))
}

fn entry_term(alloc: Global, entry: &RelupEntry) -> Result<Term, AllocError>
    ensures { IfOk result (λ t. value_of t ≡ entry_term (entry_of entry.now)) }
{
    let vsn = text_term(alloc, entry.vsn.as_str())?;
    let descr = entry.descr.clone()?;
    let script = script_term(alloc, &entry.script)?;
    triple_term(alloc, vsn, descr, script)
}

fn script_term(alloc: Global, script: &[Instr]) -> Result<Term, AllocError>
    ensures { IfOk result (λ t.
        value_of t ≡ list_of (map instruction_term (script_of script.now))) }
{
    let mut terms = Vec::with_capacity(alloc, script.len())?;
    for instr in script {
        terms.push(instruction_term(alloc, instr)?)?;
    }
    Ok(Term::List(terms))
}
