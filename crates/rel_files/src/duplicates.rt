//! Names that stand twice.
ghost use Rattle.std.specs.Prelude.{◌≡◌, IfOk, MatchOption, map, string_bytes};
ghost use Rattle.rel_files.specs.Name.{AreDistinct, IsFirstTwice};

use crate::draft::AppDraft;
use std::alloc::{AllocError, Global};
use std::collections::BTreeSet;

/// The first name that stands a second time. It takes n log n comparisons for n names.
pub fn first_name_twice<'a>(alloc: Global, names: &[&'a str]) -> Result<Option<&'a str>, AllocError>
    ensures { IfOk result (λ name. let texts = map (λ n. n.now) names.now in
        MatchOption name (AreDistinct texts) (λ n. IsFirstTwice texts n.now)) }
{
    let mut seen: BTreeSet<&str> = BTreeSet::new(alloc);
    for name in names {
        if !seen.insert(*name)? {
            return Ok(Some(*name));
        }
    }
    Ok(None)
}

// The first name of an application that stands a second time.
pub(crate) fn first_twice<'a>(
    alloc: Global,
    apps: &'a [AppDraft],
) -> Result<Option<&'a str>, AllocError>
    ensures { IfOk result (λ name. let names = map (λ a. string_bytes a.name) apps.now in
        MatchOption name (AreDistinct names) (λ n. IsFirstTwice names n.now)) }
{
    let names = names_of_apps(alloc, apps)?;
    first_name_twice(alloc, names.as_slice())
}

fn names_of_apps<'a>(alloc: Global, apps: &'a [AppDraft]) -> Result<Vec<&'a str>, AllocError>
    ensures { IfOk result (λ names.
        map (λ n. n.now) names.items ≡ map (λ a. string_bytes a.name) apps.now) }
{
    let mut names = Vec::with_capacity(alloc, apps.len())?;
    for app in apps {
        names.push(app.name.as_str())?;
    }
    Ok(names)
}
