// How deep terms are.
ghost use Rattle.std.specs.Prelude.{◌≡◌, ◌↔◌, ◌&&◌, ◌-◌, length, nat_le, nat_lt, is_some, IsTrue};
ghost use Rattle.std.specs.Str.{chars};
ghost use Rattle.erl_term.specs.Printing.{character_of, characters_of, is_string};
ghost use Rattle.erl_term.specs.Value.{members_of, value_of};
ghost use Rattle.erl_term.specs.Within.{IsWithin};
ghost use Rattle.rel_records.specs.Depth.{are_within, is_within};

use erl_term::Term;

// How many characters an atom has at most.
const MOST_CHARACTERS: usize = 255;

// Whether the text of a term can be read back with so many brackets open at once.
pub(crate) fn can_be_read_back(term: &Term, limit: usize) -> bool
    ensures value { result ≡ is_within limit (value_of term.now) }
    ensures within { IsTrue result ↔ IsWithin limit (value_of term.now) }
{
    is_within(term, limit)
}

#[cycle(depth)]
fn is_within(term: &Term, limit: usize) -> bool
    ensures { result ≡ is_within limit (value_of term.now) }
{
    match term {
        Term::Int(_) => true,
        Term::Atom(name) => is_short(name.as_str()),
        Term::List(items) => is_string(items) || are_enclosed(items, limit),
        Term::Tuple(items) => are_enclosed(items, limit),
        Term::Bin(_) => limit > 0,
    }
}

// Whether these members can be read back within brackets of their own.
#[cycle(depth)]
fn are_enclosed(items: &[Term], limit: usize) -> bool
    ensures { result ≡ (nat_lt 0 limit && are_within (limit - 1) (members_of items.now)) }
{
    if limit == 0 {
        return false;
    }
    for item in items {
        if !is_within(item, limit - 1) {
            return false;
        }
    }
    true
}

// Whether an atom may have this text.
fn is_short(name: &str) -> bool
    ensures { result ≡ nat_le (length (chars name.now)) 255 }
{
    count_characters(name) <= MOST_CHARACTERS
}

fn count_characters(text: &str) -> usize
    ensures { result ≡ length (chars text.now) }
{
    text.chars().count()
}

// Whether a list of these members is printed as a string.
fn is_string(items: &[Term]) -> bool
    ensures { result ≡ is_string (characters_of (members_of items.now)) }
{
    for item in items {
        if !is_character(item) {
            return false;
        }
    }
    !items.is_empty()
}

// Whether a member of a list can be printed as a character.
fn is_character(term: &Term) -> bool
    ensures { result ≡ is_some (character_of (value_of term.now)) }
{
    match term {
        Term::Int(9 | 10 | 13 | 32..=126) => true,
        _ => false,
    }
}
