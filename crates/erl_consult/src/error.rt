//! Why a text was not listed.
ghost use Rattle.std.specs.Prelude.{◌≡◌};
ghost use Rattle.erl_consult.specs.Exits.{exit_status};
ghost use Rattle.erl_consult.specs.declared.error.ConsultError.TheVariants.{Fault, Read, Write};
ghost use Rattle.erl_term.specs.TermFault.TheVariants.{NoMemory};

use counted_io::{ReadFailed, WriteFailed};
use erl_term::TermFault;
use std::alloc::{AllocError, AllocFailed};
use thiserror::Error;

/// Why a text was not listed.
#[derive(Clone, Copy, Debug, Error)]
pub enum ConsultError {
    /// The text is no row of terms, or no memory was left.
    #[error("{0}")]
    Fault(TermFault),
    /// A read failed. It isn't tried again.
    #[error("input or output failed")]
    Read,
    /// A write failed, or took nothing. It isn't tried again.
    #[error("input or output failed")]
    Write,
    /// The input has more bytes than a text may have.
    #[error("input too long")]
    TooLong,
}

impl ConsultError {
    /// The exit status of a program that answers so.
    pub fn exit_status(self) -> u8
        ensures { result ≡ exit_status self }
    {
        match self {
            ConsultError::Fault(TermFault::NoMemory) => 3,
            ConsultError::Fault(_) => 1,
            ConsultError::Read | ConsultError::Write => 2,
            ConsultError::TooLong => 4,
        }
    }
}

impl From<TermFault> for ConsultError {
    ghost from_gives = { λ f e. e ≡ Fault f };

    fn from(fault: TermFault) -> ConsultError {
        ConsultError::Fault(fault)
    }
}

impl From<AllocError> for ConsultError {
    ghost from_gives = { λ _ e. e ≡ Fault NoMemory };

    fn from(_: AllocError) -> ConsultError {
        ConsultError::Fault(TermFault::NoMemory)
    }
}

impl<T: Drop> From<AllocFailed<T>> for ConsultError {
    ghost from_gives = { λ _ e. e ≡ Fault NoMemory };

    fn from(_: AllocFailed<T>) -> ConsultError {
        ConsultError::Fault(TermFault::NoMemory)
    }
}

impl From<ReadFailed> for ConsultError {
    ghost from_gives = { λ _ e. e ≡ Read };

    fn from(_: ReadFailed) -> ConsultError {
        ConsultError::Read
    }
}

impl From<WriteFailed> for ConsultError {
    ghost from_gives = { λ _ e. e ≡ Write };

    fn from(_: WriteFailed) -> ConsultError {
        ConsultError::Write
    }
}
