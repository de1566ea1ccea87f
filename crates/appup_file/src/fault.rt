//! Why bytes are no appup.
ghost use Rattle.std.specs.Prelude.{◌≡◌};
ghost use Rattle.appup_file.specs.declared.fault.AppupFault.TheVariants.{NoMemory};
ghost use Rattle.appup_file.specs.Fault.{appup_fault_of};

use erl_term::TermFault;
use rel_files::FileFault;
use std::alloc::{AllocError, AllocFailed};
use std::fmt::{self, Display, Formatter};

/// What is wrong with an appup file. Of several faults the one that stands first here is reported. It is shown by its name,
/// and a fault of a term by its place too.
#[derive(Clone, Copy, Debug)]
pub enum AppupFault {
    /// The text is no row of terms.
    BadTerm(TermFault),
    /// The file has not one term, or one that says no appup.
    BadShape,
    /// No memory was left. It says nothing of the file.
    NoMemory,
}

impl From<AllocError> for AppupFault {
    ghost from_gives = { λ _ f. f ≡ NoMemory };

    fn from(_: AllocError) -> AppupFault {
        AppupFault::NoMemory
    }
}

impl<T: Drop> From<AllocFailed<T>> for AppupFault {
    ghost from_gives = { λ _ f. f ≡ NoMemory };

    fn from(_: AllocFailed<T>) -> AppupFault {
        AppupFault::NoMemory
    }
}

impl From<FileFault> for AppupFault {
    ghost from_gives = { λ e f. f ≡ appup_fault_of e };

    fn from(fault: FileFault) -> AppupFault {
        match fault {
            FileFault::BadTerm(fault) => AppupFault::BadTerm(fault),
            FileFault::NoMemory => AppupFault::NoMemory,
            _ => AppupFault::BadShape,
        }
    }
}

impl Display for AppupFault {
    ghost use Rattle.std.specs.Prelude.{Some};
    ghost use Rattle.appup_file.specs.Fault.{appup_fault_text};

    ghost output = { λ f. Some (appup_fault_text f) };

    fn fmt<W: fmt::Write>(&self, f: &mut Formatter<W>) -> fmt::Result {
        match self {
            AppupFault::BadTerm(fault) => write!(f, "{fault}"),
            AppupFault::BadShape => f.write_str("BadShape"),
            AppupFault::NoMemory => f.write_str("NoMemory"),
        }
    }
}

impl std::error::Error for AppupFault {}
