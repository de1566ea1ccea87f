//! The keys of an application's file, with their values.
ghost use Rattle.std.specs.Prelude.{◌≡◌, IfOk, map};
ghost use Rattle.std.specs.Option.{option_map};
ghost use Rattle.erl_term.specs.Value.{members_of, value_of};
ghost use Rattle.rel_files.specs.AppParts.{pairs_in, value_at};

use crate::parts::{is_word, pair_in};
use erl_term::Term;
use std::alloc::{AllocError, Global};

// The pairs, if each is one.
pub(crate) fn pairs_in(
    alloc: Global,
    items: &[Term],
) -> Result<Option<Vec<(&Term, &Term)>>, AllocError>
    ensures { IfOk result (λ pairs.
        option_map (λ v. map (λ p. (value_of p.0.now, value_of p.1.now)) v.items) pairs
        ≡ pairs_in (members_of items.now)) }
{
    let mut pairs = Vec::with_capacity(alloc, items.len())?;
    for item in items {
        let Some(pair) = pair_in(item) else {
            return Ok(None);
        };
        pairs.push(pair)?;
    }
    Ok(Some(pairs))
}

// The value of a key. Of equal keys the first counts.
pub(crate) fn value_at<'a>(pairs: &[(&'a Term, &'a Term)], key: &str) -> Option<&'a Term>
    ensures { option_map (λ v. value_of v.now) result
        ≡ value_at key.now (map (λ p. (value_of p.0.now, value_of p.1.now)) pairs.now) }
{
    for (name, value) in pairs {
        if is_word(name, key) {
            return Some(*value);
        }
    }
    None
}
