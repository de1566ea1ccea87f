//! What stands where in the terms of a release file. What reads other files of a release takes the general ones from here.
ghost use Rattle.std.specs.Prelude.{◌≡◌};
ghost use Rattle.std.specs.Option.{option_map};
ghost use Rattle.erl_term.specs.Value.{members_of, value_of};
ghost use Rattle.rel_files.specs.Parts.{list_in, two, pair_in, three, triple_in, four, four_in, word_in, is_word, app_members, app_parts, title_in, erts_in, rel_parts};

use erl_term::Term;

// `{App, Vsn}` and what follows.
#[derive(Clone, Copy)]
pub(crate) struct AppParts<'a> {
    pub(crate) name: &'a str,
    pub(crate) vsn: &'a [Term],
    pub(crate) ending: &'a [Term],
}

// `{Name, Vsn}`.
#[derive(Clone, Copy)]
pub(crate) struct Title<'a> {
    pub(crate) name: &'a [Term],
    pub(crate) vsn: &'a [Term],
}

// `{release, {Name, Vsn}, {erts, EVsn}, [AppSpec]}`.
#[derive(Clone, Copy)]
pub(crate) struct RelParts<'a> {
    pub(crate) title: Title<'a>,
    pub(crate) erts: &'a [Term],
    pub(crate) apps: &'a [Term],
}

/// The members of a list.
pub fn list_in(term: &Term) -> Option<&[Term]>
    ensures { option_map (λ items. members_of items.now) result ≡ list_in (value_of term.now) }
{
    match term {
        Term::List(items) => Some(items.as_slice()),
        _ => None,
    }
}

/// The two members of a tuple of two.
pub fn pair_in(term: &Term) -> Option<(&Term, &Term)>
    ensures { option_map (λ p. (value_of p.0.now, value_of p.1.now)) result
        ≡ pair_in (value_of term.now) }
{
    match term {
        Term::Tuple(members) => two(members),
        _ => None,
    }
}

/// The two terms of a row of two.
pub fn two(members: &[Term]) -> Option<(&Term, &Term)>
    ensures { option_map (λ p. (value_of p.0.now, value_of p.1.now)) result
        ≡ two (members_of members.now) }
{
    match members {
        [first, second] => Some((first, second)),
        _ => None,
    }
}

/// The three terms of a row of three.
pub fn three(members: &[Term]) -> Option<(&Term, &Term, &Term)>
    ensures { option_map (λ t. (value_of t.0.now, value_of t.1.now, value_of t.2.now)) result
        ≡ three (members_of members.now) }
{
    match members {
        [first, second, third] => Some((first, second, third)),
        _ => None,
    }
}

/// The three members of a tuple of three.
pub fn triple_in(term: &Term) -> Option<(&Term, &Term, &Term)>
    ensures { option_map (λ t. (value_of t.0.now, value_of t.1.now, value_of t.2.now)) result
        ≡ triple_in (value_of term.now) }
{
    match term {
        Term::Tuple(members) => three(members),
        _ => None,
    }
}

/// The four members of a tuple of four.
pub fn four_in(term: &Term) -> Option<(&Term, &Term, &Term, &Term)>
    ensures { option_map (λ p.
        (value_of p.0.now, value_of p.1.now, value_of p.2.now, value_of p.3.now)) result
        ≡ four_in (value_of term.now) }
{
    match term {
        Term::Tuple(members) => four(members),
        _ => None,
    }
}

/// The four terms of a row of four.
pub fn four(members: &[Term]) -> Option<(&Term, &Term, &Term, &Term)>
    ensures { option_map (λ p.
        (value_of p.0.now, value_of p.1.now, value_of p.2.now, value_of p.3.now)) result
        ≡ four (members_of members.now) }
{
    match members {
        [first, second, third, fourth] => Some((first, second, third, fourth)),
        _ => None,
    }
}

/// The text of an atom, which need be no name.
pub fn word_in(term: &Term) -> Option<&str>
    ensures { option_map (λ s. s.now) result ≡ word_in (value_of term.now) }
{
    match term {
        Term::Atom(word) => Some(word.as_str()),
        _ => None,
    }
}

/// Whether it is the atom of this text.
pub fn is_word(term: &Term, word: &str) -> bool
    ensures { result ≡ is_word word.now (value_of term.now) }
{
    match term {
        Term::Atom(name) => name.as_str() == word,
        _ => false,
    }
}

pub(crate) fn app_parts(term: &Term) -> Option<AppParts<'_>>
    ensures { option_map (λ p.
        record { name = p.name.now; vsn = members_of p.vsn.now; ending = members_of p.ending.now })
        result ≡ app_parts (value_of term.now) }
{
    match term {
        Term::Tuple(members) => app_members(members),
        _ => None,
    }
}

fn app_members(members: &[Term]) -> Option<AppParts<'_>>
    ensures { option_map (λ p.
        record { name = p.name.now; vsn = members_of p.vsn.now; ending = members_of p.ending.now })
        result ≡ app_members (members_of members.now) }
{
    let (first, rest) = members.split_first()?;
    let (second, ending) = rest.split_first()?;
    match (first, second) {
        (Term::Atom(name), Term::List(vsn)) => Some(AppParts {
            name: name.as_str(),
            vsn: vsn.as_slice(),
            ending,
        }),
        _ => None,
    }
}

fn title_in(term: &Term) -> Option<Title<'_>>
    ensures { option_map (λ t.
        record { name = members_of t.name.now; vsn = members_of t.vsn.now }) result
        ≡ title_in (value_of term.now) }
{
    match pair_in(term) {
        Some((Term::List(name), Term::List(vsn))) => Some(Title {
            name: name.as_slice(),
            vsn: vsn.as_slice(),
        }),
        _ => None,
    }
}

fn erts_in(term: &Term) -> Option<&[Term]>
    ensures { option_map (λ items. members_of items.now) result ≡ erts_in (value_of term.now) }
{
    match pair_in(term) {
        Some((word, vsn)) if is_word(word, "erts") => list_in(vsn),
        _ => None,
    }
}

pub(crate) fn rel_parts(term: &Term) -> Option<RelParts<'_>>
    ensures { option_map (λ p. record {
      title = record { name = members_of p.title.name.now; vsn = members_of p.title.vsn.now };
      erts = members_of p.erts.now;
      apps = members_of p.apps.now;
    }) result ≡ rel_parts (value_of term.now) }
{
    let (word, title, erts, apps) = four_in(term)?;
    if !is_word(word, "release") {
        return None;
    }
    Some(RelParts {
        title: title_in(title)?,
        erts: erts_in(erts)?,
        apps: list_in(apps)?,
    })
}
