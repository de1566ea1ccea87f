//! Copies of terms. `clone` of one is written out: a derived one says nothing of a type that holds itself.
ghost use Rattle.std.specs.Prelude.{◌≡◌, IfOk};
ghost use Rattle.erl_term.specs.Value.{members_of, value_of};

use crate::Term;
use std::alloc::{AllocError, Global};

impl Clone for Term {
    ghost is_clone = { λ old new. value_of new ≡ value_of old };

    fn clone(&self) -> Result<Term, AllocError> {
        copy(self)
    }
}

#[cycle(copying)]
fn copy(term: &Term) -> Result<Term, AllocError>
    ensures { IfOk result (λ copied. value_of copied ≡ value_of term.now) }
{
    match term {
        Term::Int(n) => Ok(Term::Int(*n)),
        Term::Atom(name) => Ok(Term::Atom(name.clone()?)),
        Term::List(items) => Ok(Term::List(copy_terms(*items.allocator(), items)?)),
        Term::Tuple(items) => Ok(Term::Tuple(copy_terms(*items.allocator(), items)?)),
        Term::Bin(bytes) => Ok(Term::Bin(Vec::from_slice(*bytes.allocator(), bytes)?)),
    }
}

/// Copies of these terms, in their order.
#[cycle(copying)]
pub fn copy_terms(alloc: Global, items: &[Term]) -> Result<Vec<Term>, AllocError>
    ensures { IfOk result (λ copied. members_of copied.items ≡ members_of items.now) }
{
    let mut copied = Vec::with_capacity(alloc, items.len())?;
    for item in items {
        copied.push(copy(item)?)?;
    }
    Ok(copied)
}
