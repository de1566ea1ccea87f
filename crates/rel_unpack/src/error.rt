//! Why a release isn't taken.
ghost use Rattle.std.specs.Prelude.{◌≡◌};

use rel_files::FileFault;
use relup_file::RelupFault;
use std::alloc::{AllocError, AllocFailed};
use std::fmt::{self, Display, Formatter};
use thiserror::Error;

/// What is wrong with a file that is there. It is shown by its name, and a fault by its place too where it has one, that of a
/// relup by the number of its entry.
#[derive(Debug, Drop)]
pub enum FileTrouble {
    /// The file can't be read.
    Unreadable,
    /// Its bytes have this fault.
    Fault(FileFault),
    /// The file hasn't one term, or one that isn't of its kind's shape. This fault has no place.
    Misshapen,
    /// The file is a relup, whose bytes have this fault.
    Relup(RelupFault),
}

impl Display for FileTrouble {
    ghost use Rattle.std.specs.Prelude.{Some};
    ghost use Rattle.rel_unpack.specs.Refusal.{trouble_of, trouble_text};

    ghost output = { λ t. Some (trouble_text (trouble_of t)) };

    fn fmt<W: fmt::Write>(&self, f: &mut Formatter<W>) -> fmt::Result {
        match self {
            FileTrouble::Unreadable => f.write_str("Unreadable"),
            FileTrouble::Fault(fault) => write!(f, "{fault}"),
            FileTrouble::Misshapen => f.write_str("BadShape"),
            FileTrouble::Relup(fault) => write!(f, "{fault}"),
        }
    }
}

impl std::error::Error for FileTrouble {}

/// Why a release isn't taken.
#[derive(Debug, Drop, Error)]
pub enum UnpackError {
    /// There is no file of this path.
    #[error("MissingFile {0}")]
    MissingFile(String),
    /// The file of this path can't be used.
    #[error("BadFile {0} {1}")]
    BadFile(String, FileTrouble),
    /// The file of this path is of another application, version or module than its path says, or a relup of another version
    /// than its release.
    #[error("VsnMismatch {0}")]
    VsnMismatch(String),
    /// The library of this application and version is there, with another specification or other tables.
    #[error("LibDiffers {0}")]
    LibDiffers(String),
    /// This module, of a child, has no table or one of the other kind; or it is a top and has the table of a worker.
    #[error("NoTable {0}")]
    NoTable(String),
    /// A limit is passed.
    #[error("TooMany")]
    TooMany,
    /// No memory was left. It says nothing of the files.
    #[error("NoMemory")]
    NoMemory,
}

impl From<AllocError> for UnpackError {
    ghost use Rattle.rel_unpack.specs.declared.error.UnpackError.TheVariants.{NoMemory};

    ghost from_gives = { λ _ e. e ≡ NoMemory };

    fn from(_: AllocError) -> UnpackError {
        UnpackError::NoMemory
    }
}

impl<T: Drop> From<AllocFailed<T>> for UnpackError {
    ghost use Rattle.rel_unpack.specs.declared.error.UnpackError.TheVariants.{NoMemory};

    ghost from_gives = { λ _ e. e ≡ NoMemory };

    fn from(_: AllocFailed<T>) -> UnpackError {
        UnpackError::NoMemory
    }
}
