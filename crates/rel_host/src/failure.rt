//! Why the program ends before its input.
ghost use Rattle.std.specs.Prelude.{◌≡◌};
ghost use Rattle.rel_host.specs.Exits.{failure_to_open, failure_of_options};

use crate::file_disk::OpenError;
use crate::options::OptionsError;
use session_input::SessionError;

/// Why the program ends before its input.
#[derive(Clone, Copy, Debug)]
pub enum Failure {
    /// Its arguments are none that it has.
    BadArguments,
    /// The session ended early, or its disk could not be had.
    Session(SessionError),
}

impl Failure {
    ghost use Rattle.rel_host.specs.Exits.{exit_status, exit_text};

    /// The exit status.
    pub fn exit_status(self) -> u8
        ensures { result ≡ exit_status self }
    {
        match self {
            Failure::BadArguments => 2,
            Failure::Session(error) => error.exit_status(),
        }
    }

    /// What the program reports after its name.
    pub fn exit_text(self) -> &'static str
        ensures { result.now ≡ exit_text self }
    {
        match self {
            Failure::BadArguments => "bad arguments",
            Failure::Session(error) => error.exit_text(),
        }
    }
}

impl From<OptionsError> for Failure {
    ghost from_gives = { λ e f. f ≡ failure_of_options e };

    fn from(error: OptionsError) -> Failure {
        match error {
            OptionsError::BadArguments => Failure::BadArguments,
            OptionsError::NoMemory => Failure::Session(SessionError::NoMemory),
        }
    }
}

impl From<OpenError> for Failure {
    ghost from_gives = { λ e f. f ≡ failure_to_open e };

    fn from(error: OpenError) -> Failure {
        match error {
            OpenError::NoMemory => Failure::Session(SessionError::NoMemory),
            OpenError::CantOpen | OpenError::InUse | OpenError::CantRead | OpenError::TooLong => {
                Failure::Session(SessionError::Read)
            }
        }
    }
}
