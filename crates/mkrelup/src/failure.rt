//! Why there is no relup.
ghost use Rattle.std.specs.Prelude.{◌≡◌};
ghost use Rattle.mkrelup.specs.Exits.{refusal_status};
ghost use Rattle.mkrelup.specs.declared.failure.Failure.TheVariants.{NoMemory};

use file_replacement::ReplaceError;
use release_relup::Refusal;
use std::alloc::{AllocError, AllocFailed, Global};

/// Why there is no relup.
#[derive(Drop)]
pub(crate) enum Failure {
    /// A word is no text.
    BadArguments,
    NoMemory,
    Refused(Refusal),
    /// The file of this path isn't replaced.
    Unwritten(String, ReplaceError),
    /// Standard output failed.
    Output,
}

impl Failure {
    ghost use Rattle.std.specs.Prelude.{◌≡◌};
    ghost use Rattle.mkrelup.specs.Exits.{exit_status};

    /// The exit status.
    pub(crate) fn status(&self) -> u8
        ensures { result ≡ exit_status self.now }
    {
        match self {
            Failure::BadArguments => 2,
            Failure::NoMemory => 3,
            Failure::Refused(refusal) => status_of_refusal(refusal),
            Failure::Unwritten(_, _) | Failure::Output => 4,
        }
    }

    /// What is reported after the program's name.
    pub(crate) fn line(&self, alloc: Global) -> Result<String, AllocError> {
        match self {
            Failure::BadArguments => String::from_str(alloc, "bad arguments"),
            Failure::NoMemory => String::from_str(alloc, "out of memory"),
            Failure::Refused(refusal) if refusal.is_no_memory() => {
                String::from_str(alloc, "out of memory")
            }
            Failure::Refused(refusal) => refusal.line(alloc),
            Failure::Unwritten(path, error) => format!(in alloc; "{path}: {error}"),
            Failure::Output => String::from_str(alloc, "standard output can't be written"),
        }
    }
}

fn status_of_refusal(refusal: &Refusal) -> u8
    ensures { result ≡ refusal_status refusal.now.why }
{
    if refusal.is_no_memory() {
        3
    } else if refusal.is_unreadable() {
        4
    } else {
        1
    }
}

impl From<AllocError> for Failure {
    ghost from_gives = { λ _ e. e ≡ NoMemory };

    fn from(_: AllocError) -> Failure {
        Failure::NoMemory
    }
}

impl<T: Drop> From<AllocFailed<T>> for Failure {
    ghost from_gives = { λ _ e. e ≡ NoMemory };

    fn from(_: AllocFailed<T>) -> Failure {
        Failure::NoMemory
    }
}
