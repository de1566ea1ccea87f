//! The entries of an appup, and the lists that they stand in.
ghost use Rattle.std.specs.Prelude.{◌≡◌, IfOk, map};
ghost use Rattle.std.specs.Option.{option_map};
ghost use Rattle.erl_term.specs.Value.{members_of, value_of};
ghost use Rattle.relup_instruction.specs.Parts.{all_in};
ghost use Rattle.appup_file.specs.Instruction.{version_of, entry_of, appup_of};
ghost use Rattle.appup_file.specs.Parts.{other_version_in, entry_in, appup_in};

use crate::steps::row_in;
use crate::{Appup, AppupEntry, OtherVersion};
use erl_term::Term;
use rel_files::parts::{list_in, pair_in};
use rel_files::text::version_in;
use relup_file::outline::outer_in;
use std::alloc::{AllocError, Global};

// The text of a version, or a binary.
pub(crate) fn other_version_in(
    alloc: Global,
    term: &Term,
) -> Result<Option<OtherVersion>, AllocError>
    ensures { IfOk result (λ o. option_map version_of o ≡ other_version_in (value_of term.now)) }
{
    match term {
        Term::Bin(bytes) => Ok(Some(OtherVersion::Pattern(Vec::from_slice(alloc, bytes)?))),
        _ => Ok(version_in(alloc, term)?.map(OtherVersion::Text)),
    }
}

// `{Vsn, [Instr]}`.
fn entry_in(alloc: Global, term: &Term) -> Result<Option<AppupEntry>, AllocError>
    ensures { IfOk result (λ o. option_map entry_of o ≡ entry_in (value_of term.now)) }
{
    let Some((vsn, instrs)) = pair_in(term) else {
        return Ok(None);
    };
    let Some(vsn) = other_version_in(alloc, vsn)? else {
        return Ok(None);
    };
    let Some(instrs) = list_in(instrs) else {
        return Ok(None);
    };
    match row_in(alloc, instrs)? {
        Some(instrs) => Ok(Some(AppupEntry { vsn, instrs })),
        None => Ok(None),
    }
}

fn entries_in(alloc: Global, items: &[Term]) -> Result<Option<Vec<AppupEntry>>, AllocError>
    ensures { IfOk result (λ o. option_map (λ v. map entry_of v.items) o
        ≡ all_in entry_in (members_of items.now)) }
{
    let mut entries = Vec::with_capacity(alloc, items.len())?;
    for item in items {
        let Some(entry) = entry_in(alloc, item)? else {
            return Ok(None);
        };
        entries.push(entry)?;
    }
    Ok(Some(entries))
}

// The appup that a term says.
pub(crate) fn appup_in(alloc: Global, term: &Term) -> Result<Option<Appup>, AllocError>
    ensures { IfOk result (λ o. option_map appup_of o ≡ appup_in (value_of term.now)) }
{
    let Some(outline) = outer_in(alloc, term)? else {
        return Ok(None);
    };
    let Some(ups) = entries_in(alloc, outline.ups)? else {
        return Ok(None);
    };
    let Some(downs) = entries_in(alloc, outline.downs)? else {
        return Ok(None);
    };
    Ok(Some(Appup {
        vsn: outline.vsn,
        ups,
        downs,
    }))
}
