//! What a file of upgrades and downgrades has outside its entries, as what reads appups needs it too.
ghost use Rattle.std.specs.Prelude.{◌≡◌, IfOk};
ghost use Rattle.std.specs.Option.{option_map};
ghost use Rattle.erl_term.specs.Value.{value_of};
ghost use Rattle.relup_file.specs.Parts.{outer_in};
ghost use Rattle.relup_file.specs.Outline.{outer_of};

use erl_term::Term;
use rel_files::parts::{list_in, triple_in};
use rel_files::text::version_in;
use std::alloc::{AllocError, Global};

/// `{Vsn, [Entry], [Entry]}`, whatever the entries are.
#[derive(Drop)]
pub struct Outline<'a> {
    pub vsn: String,
    pub ups: &'a [Term],
    pub downs: &'a [Term],
}

/// The outline that a term is, if it is one.
pub fn outer_in(alloc: Global, term: &Term) -> Result<Option<Outline<'_>>, AllocError>
    ensures { IfOk result (λ o. option_map outer_of o ≡ outer_in (value_of term.now)) }
{
    let Some((vsn, ups, downs)) = triple_in(term) else {
        return Ok(None);
    };
    let Some(vsn) = version_in(alloc, vsn)? else {
        return Ok(None);
    };
    let Some(ups) = list_in(ups) else {
        return Ok(None);
    };
    let Some(downs) = list_in(downs) else {
        return Ok(None);
    };
    Ok(Some(Outline { vsn, ups, downs }))
}
