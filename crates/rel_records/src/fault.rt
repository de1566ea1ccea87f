// Why records aren't taken.
ghost use Rattle.std.specs.Prelude.{◌≡◌};
ghost use Rattle.rel_records.specs.declared.fault.RecordFault.TheVariants.{NoMemory};
ghost use Rattle.rel_records.specs.Parts.{fault_of_text, fault_of_release, fault_of_relup, fault_of_list};

use erl_term::TermFault;
use rel_files::FileFault;
use rel_list::ListError;
use relup_file::RelupFault;
use std::alloc::{AllocError, AllocFailed};
use thiserror::Error;

/// Why the records of a store make no list.
#[derive(Clone, Copy, Debug, Error)]
pub enum RecordsError {
    /// The number of the first record, from 1, that the list so far can't take; 1 where there is none.
    #[error("record {0} is bad")]
    BadRecord(u64),
    /// No memory was left. It says nothing of the records.
    #[error("out of memory")]
    NoMemory,
}

// Why a body isn't taken as a record.
#[derive(Clone, Copy, Drop)]
pub(crate) enum RecordFault {
    // the list so far can't take it
    Bad,
    NoMemory,
}

impl From<AllocError> for RecordFault {
    ghost from_gives = { λ _ e. e ≡ NoMemory };

    fn from(_: AllocError) -> RecordFault {
        RecordFault::NoMemory
    }
}

impl<T: Drop> From<AllocFailed<T>> for RecordFault {
    ghost from_gives = { λ _ e. e ≡ NoMemory };

    fn from(_: AllocFailed<T>) -> RecordFault {
        RecordFault::NoMemory
    }
}

impl From<TermFault> for RecordFault {
    ghost from_gives = { λ f e. e ≡ fault_of_text f };

    fn from(fault: TermFault) -> RecordFault {
        match fault {
            TermFault::NoMemory => RecordFault::NoMemory,
            _ => RecordFault::Bad,
        }
    }
}

impl From<FileFault> for RecordFault {
    ghost from_gives = { λ f e. e ≡ fault_of_release f };

    fn from(fault: FileFault) -> RecordFault {
        match fault {
            FileFault::NoMemory => RecordFault::NoMemory,
            _ => RecordFault::Bad,
        }
    }
}

impl From<RelupFault> for RecordFault {
    ghost from_gives = { λ f e. e ≡ fault_of_relup f };

    fn from(fault: RelupFault) -> RecordFault {
        match fault {
            RelupFault::NoMemory => RecordFault::NoMemory,
            _ => RecordFault::Bad,
        }
    }
}

impl From<ListError> for RecordFault {
    ghost from_gives = { λ f e. e ≡ fault_of_list f };

    fn from(fault: ListError) -> RecordFault {
        match fault {
            ListError::NoMemory => RecordFault::NoMemory,
            _ => RecordFault::Bad,
        }
    }
}
