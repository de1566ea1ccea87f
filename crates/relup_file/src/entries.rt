//! The entries of a relup, and the lists that they stand in.
ghost use Rattle.std.specs.Prelude.{◌≡◌, ◌+◌, ◌<◌, ◌^◌, length, IfOk, MatchResult, Ok, map};
ghost use Rattle.std.specs.Option.{option_map};
ghost use Rattle.erl_term.specs.Value.{members_of, value_of};
ghost use Rattle.relup_file.specs.Relup.{entry_of, relup_of};
ghost use Rattle.relup_file.specs.Parts.{entry_in, entries_in, relup_in, ReportsBad};

use crate::outline::outer_in;
use crate::{Relup, RelupEntry, RelupFault};
use erl_term::Term;
use rel_files::parts::{list_in, triple_in};
use rel_files::text::version_in;
use relup_instruction::script_in;
use std::alloc::{AllocError, Global};

// `{Vsn, Descr, [Instr]}`.
fn entry_in(alloc: Global, term: &Term) -> Result<Option<RelupEntry>, AllocError>
    ensures { IfOk result (λ o. option_map entry_of o ≡ entry_in (value_of term.now)) }
{
    let Some((vsn, descr, instrs)) = triple_in(term) else {
        return Ok(None);
    };
    let Some(vsn) = version_in(alloc, vsn)? else {
        return Ok(None);
    };
    let Some(instrs) = list_in(instrs) else {
        return Ok(None);
    };
    let Some(script) = script_in(alloc, instrs)? else {
        return Ok(None);
    };
    Ok(Some(RelupEntry {
        vsn,
        descr: descr.clone()?,
        script,
    }))
}

// The entries, of which so many others stand in front.
fn entries_in(alloc: Global, before: usize, terms: &[Term]) -> Result<Vec<RelupEntry>, RelupFault>
    requires { before + length terms.now < 2 ^ 63 }
    ensures { MatchResult result
        (λ v. entries_in before (members_of terms.now) ≡ Ok (map entry_of v.items))
        (ReportsBad (entries_in before (members_of terms.now))) }
{
    let mut entries = Vec::with_capacity(alloc, terms.len())?;
    for (i, term) in terms.iter().enumerate() {
        let Some(entry) = entry_in(alloc, term)? else {
            return Err(RelupFault::BadShape(before + i + 1));
        };
        entries.push(entry)?;
    }
    Ok(entries)
}

// The relup that a term says.
pub(crate) fn relup_in(alloc: Global, term: &Term) -> Result<Relup, RelupFault>
    ensures { MatchResult result
        (λ r. relup_in (value_of term.now) ≡ Ok (relup_of r))
        (ReportsBad (relup_in (value_of term.now))) }
{
    let Some(outline) = outer_in(alloc, term)? else {
        return Err(RelupFault::BadShape(0));
    };
    let ups = entries_in(alloc, 0, outline.ups)?;
    let downs = entries_in(alloc, outline.ups.len(), outline.downs)?;
    Ok(Relup {
        vsn: outline.vsn,
        ups,
        downs,
    })
}
