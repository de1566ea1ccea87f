//! Terms of texts and of terms, as what writes files and records needs them.
ghost use Rattle.std.specs.Prelude.{◌≡◌, IfOk, map, string_bytes};
ghost use Rattle.erl_term.specs.Value.{value_of};
ghost use Rattle.erl_term.specs.Value.Value.{atom};
ghost use Rattle.rel_files.specs.Terms.{list_of, pair_term, triple_term, text_term, atoms_term};

use erl_term::Term;
use std::alloc::{AllocError, Global};

/// A list of these terms.
pub fn list_term(members: Vec<Term>) -> Term
    ensures { value_of result ≡ list_of (map value_of members.items) }
{
    Term::List(members)
}

/// A tuple of two terms.
pub fn pair_term(alloc: Global, first: Term, second: Term) -> Result<Term, AllocError>
    ensures { IfOk result (λ t. value_of t ≡ pair_term (value_of first) (value_of second)) }
{
    Ok(Term::Tuple(vec![in alloc; first, second]?))
}

/// A tuple of three terms.
pub fn triple_term(
    alloc: Global,
    first: Term,
    second: Term,
    third: Term,
) -> Result<Term, AllocError>
    ensures { IfOk result (λ t.
        value_of t ≡ triple_term (value_of first) (value_of second) (value_of third)) }
{
    Ok(Term::Tuple(vec![in alloc; first, second, third]?))
}

/// The atom of a text.
pub fn atom_term(alloc: Global, text: &str) -> Result<Term, AllocError>
    ensures { IfOk result (λ t. value_of t ≡ atom text.now) }
{
    Ok(Term::Atom(String::from_str(alloc, text)?))
}

/// The list of the atoms of these names.
pub fn atoms_term(alloc: Global, names: &[String]) -> Result<Term, AllocError>
    ensures { IfOk result (λ t. value_of t ≡ atoms_term (map string_bytes names.now)) }
{
    let mut items = Vec::with_capacity(alloc, names.len())?;
    for name in names {
        items.push(atom_term(alloc, name.as_str())?)?;
    }
    Ok(Term::List(items))
}

/// The list of the bytes of a text, which are its characters where it is ASCII.
pub fn text_term(alloc: Global, text: &str) -> Result<Term, AllocError>
    ensures { IfOk result (λ t. value_of t ≡ text_term text.now) }
{
    let bytes = text.as_bytes();
    let mut items = Vec::with_capacity(alloc, bytes.len())?;
    for byte in bytes {
        items.push(Term::Int(i64::from(*byte)))?;
    }
    Ok(Term::List(items))
}
