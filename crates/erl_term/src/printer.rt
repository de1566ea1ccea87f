//! Terms as text, with no blanks.
ghost use Rattle.std.specs.Prelude.{◌≡◌, ℕ, ◌++◌, FitsSigned, IfOk, OnOk, codes, string_bytes};
ghost use Rattle.std.specs.Fmt.{signed_decimal};
ghost use Rattle.std.specs.Int.{w64};
ghost use Rattle.erl_term.specs.Value.{FitTerms, FitsTerm, members_of, value_of};
ghost use Rattle.erl_term.specs.Value.Value.{list, tuple};
ghost use Rattle.erl_term.specs.Within.{IsWithin, ReadsAs};
ghost use Rattle.erl_term.specs.OneTerm.{HasTerm};
ghost use Rattle.erl_term.specs.Printing.{text_of, texts_of, with_commas};

mod atoms;
mod lists;

use crate::Term;
use crate::printer::atoms::print_atom;
use crate::printer::lists::{is_string, print_bytes, print_string};
use std::alloc::{AllocError, Global};

/// The text of a term, with no blanks and no dot after it.
pub fn print(alloc: Global, term: &Term) -> Result<String, AllocError>
    ensures printed { IfOk result (λ s. string_bytes s ≡ text_of (value_of term.now)) }

    // Within a reader's limit the text reads as that one term.
    ensures reads_back { IfOk result (λ s.
        (limit : ℕ) → IsWithin limit (value_of term.now)
        → ReadsAs limit (string_bytes s) (value_of term.now)) }

    // With a dot and a new line it is the body of a record, and reads as that term.
    ensures is_a_body { IfOk result (λ s.
        IsWithin 72 (value_of term.now)
        → HasTerm 72 (string_bytes s ++ codes ".\n") (value_of term.now)) }
{
    let mut out = String::new(alloc);
    print_term(&mut out, term)?;
    Ok(out)
}

// Appends a term.
#[cycle(printing)]
fn print_term(out: &mut String, term: &Term) -> Result<(), AllocError>
    ensures printed { OnOk result
        (string_bytes out.new ≡ string_bytes out.old ++ text_of (value_of term.now)) }
    ensures fits { OnOk result (FitsTerm (value_of term.now)) }
{
    match term {
        Term::Int(n) => print_integer(out, *n),
        Term::Atom(name) => print_atom(out, name.as_str()),
        Term::List(items) => print_list(out, items),
        Term::Tuple(items) => print_tuple(out, items),
        Term::Bin(bytes) => print_bytes(out, bytes.as_slice()),
    }
}

// Appends an integer in decimal.
fn print_integer(out: &mut String, n: i64) -> Result<(), AllocError>
    ensures printed { OnOk result
        (string_bytes out.new ≡ string_bytes out.old ++ signed_decimal n) }
    ensures fits { FitsSigned w64 n }
{
    write!(out, "{n}")
}

// Appends a list of these members.
#[cycle(printing)]
fn print_list(out: &mut String, items: &[Term]) -> Result<(), AllocError>
    ensures printed { OnOk result
        (string_bytes out.new ≡ string_bytes out.old ++ text_of (list (members_of items.now))) }
    ensures fit { OnOk result (FitTerms (members_of items.now)) }
{
    if is_string(items) {
        return print_string(out, items);
    }
    out.push('[')?;
    print_members(out, items)?;
    out.push(']')
}

// Appends a tuple of these members.
#[cycle(printing)]
fn print_tuple(out: &mut String, items: &[Term]) -> Result<(), AllocError>
    ensures printed { OnOk result
        (string_bytes out.new ≡ string_bytes out.old ++ text_of (tuple (members_of items.now))) }
    ensures fit { OnOk result (FitTerms (members_of items.now)) }
{
    out.push('{')?;
    print_members(out, items)?;
    out.push('}')
}

// Appends terms with commas between them.
#[cycle(printing)]
fn print_members(out: &mut String, items: &[Term]) -> Result<(), AllocError>
    ensures printed { OnOk result
        (string_bytes out.new ≡ string_bytes out.old
        ++ with_commas (texts_of (members_of items.now))) }
    ensures fit { OnOk result (FitTerms (members_of items.now)) }
{
    for (i, item) in items.iter().enumerate() {
        if i > 0 {
            out.push(',')?;
        }
        print_term(out, item)?;
    }
    Ok(())
}
