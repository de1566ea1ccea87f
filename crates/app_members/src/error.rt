//! Why an application has no members with which it can start.
ghost use Rattle.std.specs.Prelude.{◌≡◌};
ghost use Rattle.app_members.specs.declared.error.MembersError.TheVariants.{NoMemory};

use std::alloc::AllocError;
use thiserror::Error;

/// Why an application has no members with which it can start. Of several reasons the first on the way through the children is
/// reported.
#[derive(Clone, Copy, Debug, Error)]
pub enum MembersError<'a> {
    /// This module, of a child, has no table or one of the other kind; or it is a top and has the table of a worker.
    #[error("NoTable")]
    NoTable(&'a str),
    /// Supervisors stand in each other deeper than 8.
    #[error("Unsupported")]
    Unsupported,
    /// There is no memory for all members; more than a list can have are refused so, too. It may come in place of any other.
    #[error("NoMemory")]
    NoMemory,
}

impl<'a> From<AllocError> for MembersError<'a> {
    ghost from_gives = { λ _ e. e ≡ NoMemory };

    fn from(_: AllocError) -> MembersError<'a> {
        MembersError::NoMemory
    }
}
