//! Why bytes are no such file.
ghost use Rattle.std.specs.Prelude.{◌≡◌};
ghost use Rattle.rel_files.specs.declared.fault.FileFault.TheVariants.{NoMemory};
ghost use Rattle.rel_files.specs.Fault.{file_fault_of};

use erl_term::TermFault;
use std::alloc::{AllocError, AllocFailed};
use std::fmt::{self, Display, Formatter};

/// What is wrong with a file. Of several faults the one that stands first here is reported. It is shown by its name, and by
/// its place if it has one.
#[derive(Debug, Drop)]
pub enum FileFault {
    /// The text is no row of terms.
    BadTerm(TermFault),
    /// The file has not one term, or one of another shape. The place is that of its first term, 0 if it has none.
    BadShape(usize),
    /// This name stands twice.
    Duplicate(String),
    /// A version is a list of numbers, and no text of a version.
    BadVersion,
    /// No memory was left. It says nothing of the file.
    NoMemory,
}

impl From<AllocError> for FileFault {
    ghost from_gives = { λ _ f. f ≡ NoMemory };

    fn from(_: AllocError) -> FileFault {
        FileFault::NoMemory
    }
}

impl<T: Drop> From<AllocFailed<T>> for FileFault {
    ghost from_gives = { λ _ f. f ≡ NoMemory };

    fn from(_: AllocFailed<T>) -> FileFault {
        FileFault::NoMemory
    }
}

impl From<TermFault> for FileFault {
    ghost from_gives = { λ e f. f ≡ file_fault_of e };

    fn from(fault: TermFault) -> FileFault {
        match fault {
            TermFault::NoMemory => FileFault::NoMemory,
            fault => FileFault::BadTerm(fault),
        }
    }
}

impl Display for FileFault {
    ghost use Rattle.std.specs.Prelude.{Some};
    ghost use Rattle.rel_files.specs.Fault.{fault_of, file_fault_text};

    ghost output = { λ f. Some (file_fault_text (fault_of f)) };

    fn fmt<W: fmt::Write>(&self, f: &mut Formatter<W>) -> fmt::Result {
        match self {
            FileFault::BadTerm(fault) => write!(f, "{fault}"),
            FileFault::BadShape(at) => write!(f, "BadShape {at}"),
            FileFault::Duplicate(_) => f.write_str("Duplicate"),
            FileFault::BadVersion => f.write_str("BadVersion"),
            FileFault::NoMemory => f.write_str("NoMemory"),
        }
    }
}

impl std::error::Error for FileFault {}
