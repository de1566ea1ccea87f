// Why a disk isn't booted.
ghost use Rattle.std.specs.Prelude.{◌≡◌};
ghost use Rattle.rel_handler.specs.declared.error.BootError.TheVariants as boot;
ghost use Rattle.rel_handler.specs.Refusals.{reported_records};

use rel_disk::DeviceFault;
use rel_records::RecordsError;
use std::alloc::AllocError;
use std::fmt::{self, Display, Formatter};
use thiserror::Error;

/// Why a disk isn't booted.
#[derive(Clone, Copy, Debug, PartialEq, Eq, Error)]
pub enum BootError {
    /// The disk is no store.
    NotAStore,
    /// The place of a base slot that gives no place of a record, or of the open gate of a record that isn't whole.
    Damaged(u64),
    /// The device failed.
    Device,
    /// No memory was left. It says nothing of the disk.
    NoMemory,
    /// The number of the first record, from 1, that the list so far can't take; 1 where there is none. Or of the last record, where
    /// they leave a one-shot and there is no room to take it away.
    BadRecord(u64),
}

impl BootError {
    // What is shown of it.
    fn word(self) -> &'static str {
        match self {
            BootError::NotAStore => "NotAStore",
            BootError::Damaged(_) => "Damaged",
            BootError::Device => "Device",
            BootError::NoMemory => "NoMemory",
            BootError::BadRecord(_) => "BadRecord",
        }
    }
}

impl Display for BootError {
    fn fmt<W: fmt::Write>(&self, f: &mut Formatter<W>) -> fmt::Result {
        f.write_str(self.word())
    }
}

impl From<DeviceFault> for BootError {
    ghost from_gives = { λ _ e. e ≡ boot.Device };

    fn from(_: DeviceFault) -> BootError {
        BootError::Device
    }
}

impl From<AllocError> for BootError {
    ghost from_gives = { λ _ e. e ≡ boot.NoMemory };

    fn from(_: AllocError) -> BootError {
        BootError::NoMemory
    }
}

impl From<RecordsError> for BootError {
    ghost from_gives = { λ e b. b ≡ reported_records e };

    fn from(error: RecordsError) -> BootError {
        match error {
            RecordsError::BadRecord(number) => BootError::BadRecord(number),
            RecordsError::NoMemory => BootError::NoMemory,
        }
    }
}
