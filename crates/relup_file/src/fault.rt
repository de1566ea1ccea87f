//! Why bytes are no relup.
ghost use Rattle.std.specs.Prelude.{◌≡◌};
ghost use Rattle.relup_file.specs.declared.fault.RelupFault.TheVariants.{NoMemory};
ghost use Rattle.relup_file.specs.Fault.{relup_fault_of_file};

use erl_term::TermFault;
use rel_files::FileFault;
use std::alloc::{AllocError, AllocFailed};
use std::fmt::{self, Display, Formatter};

/// What is wrong with a relup file. It is shown by its name, and by its place or its entry.
#[derive(Clone, Copy, Debug)]
pub enum RelupFault {
    /// The text is no row of terms.
    BadTerm(TermFault),
    /// The first entry that is none, counted from 1, upgrades first. 0 where the file has not one term, or one of another
    /// shape.
    BadShape(usize),
    /// No memory was left. It says nothing of the file.
    NoMemory,
}

impl From<AllocError> for RelupFault {
    ghost from_gives = { λ _ f. f ≡ NoMemory };

    fn from(_: AllocError) -> RelupFault {
        RelupFault::NoMemory
    }
}

impl<T: Drop> From<AllocFailed<T>> for RelupFault {
    ghost from_gives = { λ _ f. f ≡ NoMemory };

    fn from(_: AllocFailed<T>) -> RelupFault {
        RelupFault::NoMemory
    }
}

impl From<FileFault> for RelupFault {
    ghost from_gives = { λ e f. f ≡ relup_fault_of_file e };

    fn from(fault: FileFault) -> RelupFault {
        match fault {
            FileFault::BadTerm(fault) => RelupFault::BadTerm(fault),
            FileFault::NoMemory => RelupFault::NoMemory,
            _ => RelupFault::BadShape(0),
        }
    }
}

impl Display for RelupFault {
    ghost use Rattle.std.specs.Prelude.{Some};
    ghost use Rattle.relup_file.specs.Fault.{relup_fault_text};

    ghost output = { λ f. Some (relup_fault_text f) };

    fn fmt<W: fmt::Write>(&self, f: &mut Formatter<W>) -> fmt::Result {
        match self {
            RelupFault::BadTerm(fault) => write!(f, "{fault}"),
            RelupFault::BadShape(entry) => write!(f, "BadShape {entry}"),
            RelupFault::NoMemory => f.write_str("NoMemory"),
        }
    }
}

impl std::error::Error for RelupFault {}
