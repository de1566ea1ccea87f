//! What is wrong with a release as a whole.
ghost use Rattle.std.specs.Prelude.{◌≡◌};
ghost use Rattle.rel_check.specs.declared.fault.ReleaseFault.TheVariants.{NoMemory};

use crate::Named;
use std::alloc::AllocError;

/// What is wrong with a release as a whole. Of several faults the one that stands first here is reported.
#[derive(Clone, Copy)]
pub enum ReleaseFault<'a> {
    /// This module of this application stands in one before it too: its `.app` file has a duplicate.
    ModuleTwice(Named<'a>),
    /// Two children in the tables of this application have this id: its `.app` file has a duplicate.
    IdTwice(Named<'a>),
    /// This module, of a child, has no table or one of the other kind; or it is a top and has the table of a worker.
    NoTable(&'a str),
    /// A limit is passed.
    TooMany,
    /// No memory was left. It says nothing of the release.
    NoMemory,
}

impl<'a> From<AllocError> for ReleaseFault<'a> {
    ghost from_gives = { λ _ f. f ≡ NoMemory };

    fn from(_: AllocError) -> ReleaseFault<'a> {
        ReleaseFault::NoMemory
    }
}
