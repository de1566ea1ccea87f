//! The words of instructions, as what reads appups needs them too.
ghost use Rattle.std.specs.Prelude.{◌≡◌};
ghost use Rattle.erl_term.specs.Value.{value_of};
ghost use Rattle.relup_instruction.specs.Parts.{purge_mode_of, purge_mode_in, direction_of, mode_in, timeout_of, timeout_in};

use crate::{Direction, PurgeMode, Timeout};
use erl_term::Term;
use rel_files::parts::word_in;

fn purge_mode_of(word: &str) -> Option<PurgeMode>
    ensures { result ≡ purge_mode_of word.now }
{
    match word {
        "soft_purge" => Some(PurgeMode::Soft),
        "brutal_purge" => Some(PurgeMode::Brutal),
        _ => None,
    }
}

/// How to purge, in a word.
pub fn purge_mode_in(term: &Term) -> Option<PurgeMode>
    ensures { result ≡ purge_mode_in (value_of term.now) }
{
    purge_mode_of(word_in(term)?)
}

fn direction_of(word: &str) -> Option<Direction>
    ensures { result ≡ direction_of word.now }
{
    match word {
        "up" => Some(Direction::Up),
        "down" => Some(Direction::Down),
        _ => None,
    }
}

// The mode of a change of code.
pub(crate) fn mode_in(term: &Term) -> Option<Direction>
    ensures { result ≡ mode_in (value_of term.now) }
{
    direction_of(word_in(term)?)
}

fn timeout_of(word: &str) -> Option<Timeout>
    ensures { result ≡ timeout_of word.now }
{
    match word {
        "default" => Some(Timeout::Default),
        "infinity" => Some(Timeout::Infinity),
        _ => None,
    }
}

/// A timeout: a word, or a number from 0.
pub fn timeout_in(term: &Term) -> Option<Timeout>
    ensures { result ≡ timeout_in (value_of term.now) }
{
    match term {
        Term::Atom(word) => timeout_of(word.as_str()),
        Term::Int(n) if *n >= 0 => Some(Timeout::Milliseconds(*n)),
        _ => None,
    }
}
