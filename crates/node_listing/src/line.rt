//! Lines of listings.
ghost use Rattle.std.specs.Prelude.{◌≡◌, ◌++◌, string_bytes, OnOk};
ghost use Rattle.erl_term.specs.Value.{value_of};
ghost use Rattle.node_listing.specs.Listing.{count_line, term_line};

use erl_term::{Term, print};
use std::alloc::{AllocError, Global};

/// Puts the line of a term at the end.
pub(crate) fn push_term(alloc: Global, text: &mut String, term: &Term) -> Result<(), AllocError>
    ensures { OnOk result
        (string_bytes text.new ≡ string_bytes text.old ++ term_line (value_of term.now)) }
{
    let line = print(alloc, term)?;
    text.push_str(line.as_str())?;
    text.push_str("\n")
}

/// Puts the last line of a listing at the end: how many there are.
pub fn push_count(alloc: Global, text: &mut String, count: usize) -> Result<(), AllocError>
    ensures { OnOk result (string_bytes text.new ≡ string_bytes text.old ++ count_line count) }
{
    let line = format!(in alloc; "ok {count}\n")?;
    text.push_str(line.as_str())
}
