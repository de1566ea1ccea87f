//! Why no plain entries are made.
ghost use Rattle.std.specs.Prelude.{◌≡◌};
ghost use Rattle.appup_plain.specs.declared.fault.PlainError.TheVariants.{NoMemory};

use appup_match::PatternFault;
use std::alloc::{AllocError, AllocFailed};

/// Why no plain entries are made.
#[derive(Clone, Copy, Debug)]
pub enum PlainError {
    /// A search comes to this entry, and its pattern has this fault. An entry is named by its place among those of the direction,
    /// from 0 on.
    BadPattern(usize, PatternFault),
    /// No memory was left. It says nothing of the appup.
    NoMemory,
}

impl From<AllocError> for PlainError {
    ghost from_gives = { λ _ e. e ≡ NoMemory };

    fn from(_: AllocError) -> PlainError {
        PlainError::NoMemory
    }
}

impl<T: Drop> From<AllocFailed<T>> for PlainError {
    ghost from_gives = { λ _ e. e ≡ NoMemory };

    fn from(_: AllocFailed<T>) -> PlainError {
        PlainError::NoMemory
    }
}
