//! Why no relup is made by patterns.
ghost use Rattle.std.specs.Prelude.{◌≡◌};
ghost use Rattle.relup_by_patterns.specs.declared.error.PatternError.TheVariants.{NoMemory};
ghost use Rattle.relup_by_patterns.specs.declared.error.ByPatternsError.TheVariants.{Patterns, Translation};

use appup_match::PatternFault;
use relup_instruction::Direction;
use relup_translate::TranslateError;
use std::alloc::{AllocError, AllocFailed};

/// A pattern that a search comes to, and that has a fault.
#[derive(Drop)]
pub struct BadPattern {
    /// The application whose appup has it.
    pub app: String,
    /// Whether its entry is one of the upgrades or one of the downgrades.
    pub direction: Direction,
    /// The place of its entry among those, from 0 on.
    pub place: usize,
    pub fault: PatternFault,
}

/// Why a release has no plain appups.
#[derive(Drop)]
pub enum PatternError {
    BadPattern(BadPattern),
    /// No memory was left. It says nothing of the release.
    NoMemory,
}

impl From<AllocError> for PatternError {
    ghost from_gives = { λ _ e. e ≡ NoMemory };

    fn from(_: AllocError) -> PatternError {
        PatternError::NoMemory
    }
}

impl<T: Drop> From<AllocFailed<T>> for PatternError {
    ghost from_gives = { λ _ e. e ≡ NoMemory };

    fn from(_: AllocFailed<T>) -> PatternError {
        PatternError::NoMemory
    }
}

/// Why no relup is made by patterns. Either may say that no memory was left, which says nothing of the releases.
#[derive(Drop)]
pub enum ByPatternsError {
    /// A pattern has a fault.
    Patterns(PatternError),
    /// The translation has one.
    Translation(TranslateError),
}

impl From<PatternError> for ByPatternsError {
    ghost from_gives = { λ why e. e ≡ Patterns why };

    fn from(why: PatternError) -> ByPatternsError {
        ByPatternsError::Patterns(why)
    }
}

impl From<TranslateError> for ByPatternsError {
    ghost from_gives = { λ why e. e ≡ Translation why };

    fn from(why: TranslateError) -> ByPatternsError {
        ByPatternsError::Translation(why)
    }
}
