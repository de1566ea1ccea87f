//! What stands first under a name.
ghost use Rattle.std.specs.Prelude.{◌≡◌, ℕ, List, IfOk};
ghost use Rattle.relup_lint.specs.Names.{first_under, found_under};

use std::alloc::{AllocError, Global};
use std::collections::BTreeMap;

/// The first row under each name. It takes n log n comparisons for n rows.
pub(crate) fn first_by_name<'a, V: Copy>(
    alloc: Global,
    rows: &[(&'a str, V)],
) -> Result<BTreeMap<&'a str, V>, AllocError>
    ensures { IfOk result (λ first. (name : List ℕ) →
        found_under name first ≡ first_under name rows.now) }
{
    let mut first = BTreeMap::new(alloc);
    for (name, value) in rows {
        if !first.contains_key(name) {
            first.insert(*name, *value)?;
        }
    }
    Ok(first)
}
