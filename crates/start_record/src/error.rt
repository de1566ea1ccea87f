// Why a start isn't read or written.
ghost use Rattle.std.specs.Prelude.{◌≡◌};
ghost use Rattle.start_record.specs.Refusals.{IsSlotError, start_refusal};
ghost use Rattle.start_record.specs.declared.error.StartError.TheVariants.{NoMemory};

use rel_store::StoreError;
use std::alloc::AllocError;
use std::fmt::{self, Display, Formatter};
use thiserror::Error;

/// A refusal.
#[derive(Clone, Copy, Debug, PartialEq, Eq, Error)]
pub enum StartError {
    /// The start slot spells no start.
    BadStart,
    /// The device failed in this call.
    Device,
    /// A version is longer than 62 bytes.
    TooLong,
    /// Memory was refused.
    NoMemory,
    /// The device failed in an earlier call, and the store has to be opened again.
    MustReopen,
}

impl StartError {
    // What is shown of it.
    fn text(self) -> &'static str {
        match self {
            StartError::BadStart => "the start slot spells no start",
            StartError::Device => "the device failed",
            StartError::TooLong => "a version is too long",
            StartError::NoMemory => "out of memory",
            StartError::MustReopen => "the store must be opened again",
        }
    }
}

impl Display for StartError {
    fn fmt<W: fmt::Write>(&self, f: &mut Formatter<W>) -> fmt::Result {
        f.write_str(self.text())
    }
}

impl From<AllocError> for StartError {
    ghost from_gives = { λ _ e. e ≡ NoMemory };

    fn from(_: AllocError) -> Self {
        StartError::NoMemory
    }
}

// What a refusal of the store's start slot is here.
pub(crate) fn slot_error(error: StoreError) -> StartError
    requires { IsSlotError error }
    ensures { result ≡ start_refusal error }
{
    match error {
        StoreError::Device => StartError::Device,
        StoreError::MustReopen => StartError::MustReopen,
        StoreError::NotAStore
        | StoreError::Damaged(_)
        | StoreError::Exists
        | StoreError::Full
        | StoreError::NoMemory => unreachable!(),
    }
}
