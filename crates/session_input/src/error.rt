//! Why a session ended before its input did.
ghost use Rattle.std.specs.Prelude.{◌≡◌};
ghost use Rattle.session_input.specs.declared.error.SessionError.TheVariants.{Read, Write, NoMemory};

use counted_io::{ReadFailed, WriteFailed};
use std::alloc::{AllocError, AllocFailed};
use thiserror::Error;

/// Why a session ended before its input did.
#[derive(Clone, Copy, Debug, Error)]
pub enum SessionError {
    /// A read failed. It isn't tried again.
    #[error("a read failed")]
    Read,
    /// A write failed, or took nothing. It isn't tried again.
    #[error("a write failed")]
    Write,
    /// All bytes of the input that may be taken were taken, and a further one was needed.
    #[error("the input is too long")]
    Limit,
    /// No memory was left.
    #[error("no memory was left")]
    NoMemory,
}

impl SessionError {
    ghost use Rattle.session_input.specs.Exits.{exit_status, exit_text};

    /// The exit status of a program whose session ended so.
    pub fn exit_status(self) -> u8
        ensures { result ≡ exit_status self }
    {
        match self {
            SessionError::Read | SessionError::Write => 1,
            SessionError::NoMemory => 3,
            SessionError::Limit => 4,
        }
    }

    /// What such a program reports after its name.
    pub fn exit_text(self) -> &'static str
        ensures { result.now ≡ exit_text self }
    {
        match self {
            SessionError::Read | SessionError::Write => "input or output failed",
            SessionError::NoMemory => "out of memory",
            SessionError::Limit => "input too long",
        }
    }
}

impl From<AllocError> for SessionError {
    ghost from_gives = { λ _ e. e ≡ NoMemory };

    fn from(_e: AllocError) -> SessionError {
        SessionError::NoMemory
    }
}

impl<T: Drop> From<AllocFailed<T>> for SessionError {
    ghost from_gives = { λ _ e. e ≡ NoMemory };

    fn from(_e: AllocFailed<T>) -> SessionError {
        SessionError::NoMemory
    }
}

impl From<ReadFailed> for SessionError {
    ghost from_gives = { λ _ e. e ≡ Read };

    fn from(_e: ReadFailed) -> SessionError {
        SessionError::Read
    }
}

impl From<WriteFailed> for SessionError {
    ghost from_gives = { λ _ e. e ≡ Write };

    fn from(_e: WriteFailed) -> SessionError {
        SessionError::Write
    }
}
