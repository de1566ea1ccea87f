//! What a change of code goes from.
ghost use Rattle.std.specs.Prelude.{◌≡◌, IfOk};
ghost use Rattle.worker_table.specs.Decide.{is_same_version};
ghost use Rattle.worker_table.specs.InMemory.{old_of};

use std::alloc::{AllocError, Global};

/// What a change of code goes from.
#[derive(Drop)]
pub enum Old {
    /// In an upgrade, the version of the old code.
    Up(String),
    /// In a downgrade, the version that it goes to.
    Down(String),
}

impl Old {
    pub(crate) fn is_same(&self, other: &Old) -> bool
        ensures { result ≡ is_same_version (old_of self.now) (old_of other.now) }
    {
        match (self, other) {
            (Old::Up(vsn), Old::Up(other)) => vsn.as_str() == other.as_str(),
            (Old::Down(vsn), Old::Down(other)) => vsn.as_str() == other.as_str(),
            _ => false,
        }
    }

    pub(crate) fn copy(&self, alloc: Global) -> Result<Old, AllocError>
        ensures { IfOk result (λ old. old_of old ≡ old_of self.now) }
    {
        match self {
            Old::Up(vsn) => String::from_str(alloc, vsn.as_str()).map(Old::Up),
            Old::Down(vsn) => String::from_str(alloc, vsn.as_str()).map(Old::Down),
        }
    }
}
