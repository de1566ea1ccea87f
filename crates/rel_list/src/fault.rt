//! Why an event isn't accepted.
ghost use Rattle.std.specs.Prelude.{◌≡◌};
ghost use Rattle.rel_list.specs.declared.fault.ListError.TheVariants.{NoMemory};

use crate::Status;
use std::alloc::{AllocError, AllocFailed};
use std::fmt::{self, Display, Formatter};
use thiserror::Error;

/// The condition that an event fails.
#[derive(Clone, Copy, Debug, PartialEq, Eq, Error)]
pub enum ListError {
    /// The list has no release of this version.
    NoSuchRelease,
    /// The list has a release of this version, or has one where it is to get its first.
    ExistingRelease,
    /// A library of the release is in the list, with another specification or other tables. `first_different` finds it.
    LibDiffers,
    /// The release is to be installed, and runs.
    AlreadyInstalled,
    /// The release has this status, and would need another one.
    BadStatus(Status),
    /// The release is to be removed, and is the permanent one.
    Permanent,
    /// The release is to be removed, and runs.
    Running,
    /// No memory was left for a release that the list would take.
    NoMemory,
}

impl ListError {
    // The word with which it is shown.
    fn word(self) -> &'static str {
        match self {
            ListError::NoSuchRelease => "NoSuchRelease",
            ListError::ExistingRelease => "ExistingRelease",
            ListError::LibDiffers => "LibDiffers",
            ListError::AlreadyInstalled => "AlreadyInstalled",
            ListError::BadStatus(_) => "BadStatus",
            ListError::Permanent => "Permanent",
            ListError::Running => "Running",
            ListError::NoMemory => "NoMemory",
        }
    }
}

impl Display for ListError {
    fn fmt<W: fmt::Write>(&self, f: &mut Formatter<W>) -> fmt::Result {
        f.write_str(self.word())?;
        match self {
            ListError::BadStatus(status) => write!(f, " {}", status.as_str()),
            _ => Ok(()),
        }
    }
}

impl From<AllocError> for ListError {
    ghost from_gives = { λ _ e. e ≡ NoMemory };

    fn from(_: AllocError) -> ListError {
        ListError::NoMemory
    }
}

impl<T: Drop> From<AllocFailed<T>> for ListError {
    ghost from_gives = { λ _ e. e ≡ NoMemory };

    fn from(_: AllocFailed<T>) -> ListError {
        ListError::NoMemory
    }
}
