// Why a call on a store was refused.
ghost use Rattle.std.specs.Prelude.{◌≡◌};
ghost use Rattle.rel_store.specs.declared.error.StoreError.TheVariants.{Device, NoMemory};

use rel_disk::DeviceFault;
use std::alloc::{AllocError, AllocFailed};
use std::fmt::{self, Display, Formatter};
use thiserror::Error;

/// A refusal. Each call says which of them it can answer, and what stands after it.
#[derive(Clone, Copy, Debug, PartialEq, Eq, Error)]
pub enum StoreError {
    /// The disk has fewer than 289 bytes, or doesn't begin with an open gate and the magic.
    NotAStore,
    /// The place of a base slot that gives no place of a record, or of the open gate of a record that isn't whole.
    Damaged(u64),
    /// A store stands on the disk already.
    Exists,
    /// The store would end past 67,108,864 bytes, or the body is longer than 16,777,216.
    Full,
    /// The device failed in this call.
    Device,
    /// Memory was refused.
    NoMemory,
    /// The device failed in an earlier call, and the store has to be opened again.
    MustReopen,
}

impl StoreError {
    // What is shown of it, without a place.
    fn text(self) -> &'static str {
        match self {
            StoreError::NotAStore => "the disk is no store",
            StoreError::Damaged(_) => "the store is damaged",
            StoreError::Exists => "the disk is a store already",
            StoreError::Full => "the store is full",
            StoreError::Device => "the device failed",
            StoreError::NoMemory => "out of memory",
            StoreError::MustReopen => "the store must be opened again",
        }
    }
}

impl Display for StoreError {
    fn fmt<W: fmt::Write>(&self, f: &mut Formatter<W>) -> fmt::Result {
        match self {
            StoreError::Damaged(at) => write!(f, "{} at {at}", self.text()),
            _ => f.write_str(self.text()),
        }
    }
}

impl From<DeviceFault> for StoreError {
    ghost from_gives = { λ _ e. e ≡ Device };

    fn from(_: DeviceFault) -> Self {
        StoreError::Device
    }
}

impl From<AllocError> for StoreError {
    ghost from_gives = { λ _ e. e ≡ NoMemory };

    fn from(_: AllocError) -> Self {
        StoreError::NoMemory
    }
}

impl<T: Drop> From<AllocFailed<T>> for StoreError {
    ghost from_gives = { λ _ e. e ≡ NoMemory };

    fn from(_: AllocFailed<T>) -> Self {
        StoreError::NoMemory
    }
}
