//! What stands where in the term of a module's table.
ghost use Rattle.std.specs.Prelude.{◌≡◌};
ghost use Rattle.std.specs.Option.{option_map};
ghost use Rattle.erl_term.specs.Value.{members_of, value_of};
ghost use Rattle.worker_table.specs.Parts.{tagged, tagged_in, number_in};

use erl_term::Term;

/// The atom that a tuple begins with, and what follows. Nothing for another term.
pub fn tagged_in(term: &Term) -> Option<(&str, &[Term])>
    ensures { option_map (λ t. (t.0.now, members_of t.1.now)) result
        ≡ tagged_in (value_of term.now) }
{
    match term {
        Term::Tuple(members) => tagged(members),
        _ => None,
    }
}

fn tagged(members: &[Term]) -> Option<(&str, &[Term])>
    ensures { option_map (λ t. (t.0.now, members_of t.1.now)) result
        ≡ tagged (members_of members.now) }
{
    let (first, rest) = members.split_first()?;
    match first {
        Term::Atom(word) => Some((word.as_str(), rest)),
        _ => None,
    }
}

// A number from 0 to 4294967295.
pub(crate) fn number_in(term: &Term) -> Option<u32>
    ensures { result ≡ number_in (value_of term.now) }
{
    match term {
        Term::Int(n @ 0..=4_294_967_295) => Some(*n as u32),
        _ => None,
    }
}
