//! What stands after the word of an instruction.
ghost use Rattle.std.specs.Prelude.{◌≡◌, IfOk, map};
ghost use Rattle.std.specs.Option.{option_map};
ghost use Rattle.erl_term.specs.Value.{members_of, value_of};
ghost use Rattle.relup_instruction.specs.Instruction.{fetch_of, suspension_of, purging_of, change_of, conversion_of, call_of};
ghost use Rattle.relup_instruction.specs.Parts.{all_in, one_in, fetch_in, limited_in, suspension_in, suspensions_in, purging_in, change_in, changes_in, with_changes, with_mode, conversion_in, call_in};

use crate::words::{mode_in, purge_mode_in, timeout_in};
use crate::{Call, Change, Conversion, Direction, Fetch, Purging, Suspension};
use erl_term::{Term, copy_terms};
use rel_files::parts::{list_in, pair_in, triple_in, word_in};
use rel_files::text::{name_in, names_in, version_in};
use std::alloc::{AllocError, Global};

// The only term of a row of one.
pub(crate) fn one_in(members: &[Term]) -> Option<&Term>
    ensures { option_map (λ t. value_of t.now) result ≡ one_in (members_of members.now) }
{
    match members {
        [only] => Some(only),
        _ => None,
    }
}

// `{App, Vsn, [Mod]}`.
pub(crate) fn fetch_in(alloc: Global, term: &Term) -> Result<Option<Fetch>, AllocError>
    ensures { IfOk result (λ o. option_map fetch_of o ≡ fetch_in (value_of term.now)) }
{
    let Some((app, vsn, modules)) = triple_in(term) else {
        return Ok(None);
    };
    let Some(app) = name_in(app) else {
        return Ok(None);
    };
    let Some(vsn) = version_in(alloc, vsn)? else {
        return Ok(None);
    };
    let Some(modules) = names_in(alloc, modules)? else {
        return Ok(None);
    };
    Ok(Some(Fetch {
        app: String::from_str(alloc, app)?,
        vsn,
        modules,
    }))
}

// `{Mod, Timeout}`.
fn limited_in(alloc: Global, name: &Term, timeout: &Term) -> Result<Option<Suspension>, AllocError>
    ensures { IfOk result (λ o.
        option_map suspension_of o ≡ limited_in (value_of name.now, value_of timeout.now)) }
{
    let Some(name) = name_in(name) else {
        return Ok(None);
    };
    let Some(timeout) = timeout_in(timeout) else {
        return Ok(None);
    };
    Ok(Some(Suspension {
        name: String::from_str(alloc, name)?,
        timeout: Some(timeout),
    }))
}

// `Mod` or `{Mod, Timeout}`.
fn suspension_in(alloc: Global, term: &Term) -> Result<Option<Suspension>, AllocError>
    ensures { IfOk result (λ o. option_map suspension_of o ≡ suspension_in (value_of term.now)) }
{
    if let Some((name, timeout)) = pair_in(term) {
        return limited_in(alloc, name, timeout);
    }
    let Some(name) = name_in(term) else {
        return Ok(None);
    };
    Ok(Some(Suspension {
        name: String::from_str(alloc, name)?,
        timeout: None,
    }))
}

// `[Mod]`, each with or without a timeout.
pub(crate) fn suspensions_in(
    alloc: Global,
    term: &Term,
) -> Result<Option<Vec<Suspension>>, AllocError>
    ensures { IfOk result (λ o.
        option_map (λ v. map suspension_of v.items) o ≡ suspensions_in (value_of term.now)) }
{
    match list_in(term) {
        Some(items) => all_suspensions(alloc, items),
        None => Ok(None),
    }
}

fn all_suspensions(alloc: Global, items: &[Term]) -> Result<Option<Vec<Suspension>>, AllocError>
    ensures { IfOk result (λ o. option_map (λ v. map suspension_of v.items) o
        ≡ all_in suspension_in (members_of items.now)) }
{
    let mut all = Vec::with_capacity(alloc, items.len())?;
    for item in items {
        let Some(suspension) = suspension_in(alloc, item)? else {
            return Ok(None);
        };
        all.push(suspension)?;
    }
    Ok(Some(all))
}

// `{Mod, PrePurge, PostPurge}`.
pub(crate) fn purging_in(alloc: Global, term: &Term) -> Result<Option<Purging>, AllocError>
    ensures { IfOk result (λ o. option_map purging_of o ≡ purging_in (value_of term.now)) }
{
    let Some((name, pre, post)) = triple_in(term) else {
        return Ok(None);
    };
    let Some(name) = name_in(name) else {
        return Ok(None);
    };
    let Some(pre) = purge_mode_in(pre) else {
        return Ok(None);
    };
    let Some(post) = purge_mode_in(post) else {
        return Ok(None);
    };
    Ok(Some(Purging {
        name: String::from_str(alloc, name)?,
        pre,
        post,
    }))
}

// `{Mod, Extra}`.
fn change_in(alloc: Global, term: &Term) -> Result<Option<Change>, AllocError>
    ensures { IfOk result (λ o. option_map change_of o ≡ change_in (value_of term.now)) }
{
    let Some((name, extra)) = pair_in(term) else {
        return Ok(None);
    };
    let Some(name) = name_in(name) else {
        return Ok(None);
    };
    Ok(Some(Change {
        name: String::from_str(alloc, name)?,
        extra: extra.clone()?,
    }))
}

// `[{Mod, Extra}]`.
fn changes_in(alloc: Global, term: &Term) -> Result<Option<Vec<Change>>, AllocError>
    ensures { IfOk result (λ o.
        option_map (λ v. map change_of v.items) o ≡ changes_in (value_of term.now)) }
{
    match list_in(term) {
        Some(items) => all_changes(alloc, items),
        None => Ok(None),
    }
}

fn all_changes(alloc: Global, items: &[Term]) -> Result<Option<Vec<Change>>, AllocError>
    ensures { IfOk result (λ o. option_map (λ v. map change_of v.items) o
        ≡ all_in change_in (members_of items.now)) }
{
    let mut all = Vec::with_capacity(alloc, items.len())?;
    for item in items {
        let Some(change) = change_in(alloc, item)? else {
            return Ok(None);
        };
        all.push(change)?;
    }
    Ok(Some(all))
}

fn with_changes(
    alloc: Global,
    mode: Option<Direction>,
    term: &Term,
) -> Result<Option<Conversion>, AllocError>
    ensures { IfOk result (λ o.
        option_map conversion_of o ≡ with_changes mode (value_of term.now)) }
{
    match changes_in(alloc, term)? {
        Some(changes) => Ok(Some(Conversion { mode, changes })),
        None => Ok(None),
    }
}

// `[{Mod, Extra}]`, or a mode and such a list.
pub(crate) fn conversion_in(
    alloc: Global,
    members: &[Term],
) -> Result<Option<Conversion>, AllocError>
    ensures { IfOk result (λ o.
        option_map conversion_of o ≡ conversion_in (members_of members.now)) }
{
    let Some((first, rest)) = members.split_first() else {
        return Ok(None);
    };
    match rest.split_first() {
        None => with_changes(alloc, None, first),
        Some(_) => with_mode(alloc, first, rest),
    }
}

// A mode and the list after it.
fn with_mode(alloc: Global, mode: &Term, rest: &[Term]) -> Result<Option<Conversion>, AllocError>
    ensures { IfOk result (λ o.
        option_map conversion_of o ≡ with_mode (value_of mode.now) (members_of rest.now)) }
{
    let Some(changes) = one_in(rest) else {
        return Ok(None);
    };
    match mode_in(mode) {
        Some(mode) => with_changes(alloc, Some(mode), changes),
        None => Ok(None),
    }
}

// `{M, F, A}`.
pub(crate) fn call_in(alloc: Global, term: &Term) -> Result<Option<Call>, AllocError>
    ensures { IfOk result (λ o. option_map call_of o ≡ call_in (value_of term.now)) }
{
    let Some((name, function, args)) = triple_in(term) else {
        return Ok(None);
    };
    let Some(name) = name_in(name) else {
        return Ok(None);
    };
    let Some(function) = word_in(function) else {
        return Ok(None);
    };
    let Some(args) = list_in(args) else {
        return Ok(None);
    };
    Ok(Some(Call {
        name: String::from_str(alloc, name)?,
        function: String::from_str(alloc, function)?,
        args: copy_terms(alloc, args)?,
    }))
}
