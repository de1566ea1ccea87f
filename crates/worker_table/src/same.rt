//! Whether two terms are equal. A derived `==` says nothing of a type that holds itself.
ghost use Rattle.std.specs.Prelude.{◌≡◌};
ghost use Rattle.erl_term.specs.Value.{members_of, value_of};
ghost use Rattle.worker_table.specs.Same.{is_same, are_same};

use erl_term::Term;

/// Whether two terms are equal. It takes no memory.
#[cycle(comparing)]
pub fn is_same(left: &Term, right: &Term) -> bool
    ensures { result ≡ is_same (value_of left.now) (value_of right.now) }
{
    match (left, right) {
        (Term::Int(m), Term::Int(n)) => *m == *n,
        (Term::Atom(name), Term::Atom(other)) => name.as_str() == other.as_str(),
        (Term::List(items), Term::List(others)) => are_same(items.as_slice(), others.as_slice()),
        (Term::Tuple(items), Term::Tuple(others)) => are_same(items.as_slice(), others.as_slice()),
        (Term::Bin(bytes), Term::Bin(others)) => bytes.as_slice() == others.as_slice(),
        _ => false,
    }
}

#[cycle(comparing)]
fn are_same(left: &[Term], right: &[Term]) -> bool
    ensures { result ≡ are_same (members_of left.now) (members_of right.now) }
{
    let mut others = right;
    for item in left {
        let Some((other, rest)) = others.split_first() else {
            return false;
        };
        if !is_same(item, other) {
            return false;
        }
        others = rest;
    }
    others.split_first().is_none()
}
