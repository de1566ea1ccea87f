//! Why no instructions are found.
use std::alloc::AllocError;

/// Why it isn't known for which versions a pattern is.
#[derive(Clone, Copy, Debug)]
pub enum PatternFault {
    /// The crate `regex` doesn't take it: it isn't UTF-8, isn't in the crate's grammar, as one with a look-around or a back
    /// reference, or is nested deeper than 250.
    NoPattern,
    /// The pattern has a form that OTP's `re` and the crate `regex` both accept and read in different ways: a possessive
    /// quantifier (`*+`, `++`, `?+`, `}+`), a class with `&&`, `--`, `~~` or `[` in it, `\<`, `\>`, `\b{`, flags (as `(?x)`),
    /// or a byte that no version has (a blank, or one that isn't ASCII).
    Ambiguous,
    /// Its compiled form is over the crate's limit of 10 MiB.
    TooBig,
}

/// Why no instructions are found.
#[derive(Clone, Copy, Debug)]
pub enum MatchError {
    /// No entry is for the version.
    NoEntry,
    /// The search comes to this entry, and its pattern has this fault. An entry is named by its place among those of the direction,
    /// from 0 on.
    BadPattern(usize, PatternFault),
    /// No memory was left. It says nothing of the appup.
    NoMemory,
}

impl From<AllocError> for MatchError {
    ghost use Rattle.std.specs.Prelude.{◌≡◌};
    ghost use Rattle.appup_match.specs.declared.fault.MatchError.TheVariants.{NoMemory};

    ghost from_gives = { λ _ e. e ≡ NoMemory };

    fn from(_: AllocError) -> MatchError {
        MatchError::NoMemory
    }
}
