// Why a command was refused.
ghost use Rattle.std.specs.Prelude.{◌≡◌};
ghost use Rattle.node_command.specs.declared.error.HandlerError.TheVariants as command;
ghost use Rattle.node_command.specs.Files.{reported_files};
ghost use Rattle.node_command.specs.Taking.{list_refusal};

use rel_disk::DeviceFault;
use rel_list::{ListError, Status};
use rel_unpack::{FileTrouble, UnpackError};
use std::alloc::{AllocError, AllocFailed};
use std::fmt::{self, Debug, Display, Formatter};
use thiserror::Error;

/// Why a command was refused. Where a handler reports it, nothing has changed, but after `Device`. A session reports `NoMemory`
/// also where a command was done, and there was no memory for its line.
#[derive(Error)]
pub enum HandlerError {
    /// The list has no release of this version.
    NoSuchRelease,
    /// The list has a release of this version.
    ExistingRelease,
    /// The release is to be installed, and runs.
    AlreadyInstalled,
    /// The release has this status, and would need another one.
    BadStatus(Status),
    /// The release is to be removed, and is the permanent one.
    Permanent,
    /// The release is to be removed, and runs.
    Running,
    /// The library of this application is there, with another specification or other tables.
    LibDiffers(String),
    /// The file of this path can't be used.
    BadFile(String, FileTrouble),
    /// There is no file of this path.
    MissingFile(String),
    /// The file of this path is of another application, version or module than its path says, or a relup of another version than
    /// the release beside it.
    VsnMismatch(String),
    /// This module, of a child, has no table or one of the other kind; or it is a top and has the table of a worker.
    NoTable(String),
    /// A file is too large, the release passes a limit on a release or on what its applications have, a script of its relup has
    /// more than 4,096 instructions, or it would be one more than a node may have.
    TooMany,
    /// The device failed. The handler is dead until the next boot, which finds the command's event or not.
    Device,
    /// The store would be longer than it may be.
    Full,
    /// The node has to be booted: the device failed in an earlier command, a script failed after its point of no return, or a
    /// reboot or a restart was done.
    Dead,
    /// No memory was left. It says nothing of the command.
    NoMemory,
    /// No relup has a script from the release that runs to the one that is to be installed.
    NoMatchingRelup,
    /// A node is on the disk already.
    Exists,
}

// Let go by one call: a derived drop would stand field by field at each exit of a caller.
impl Drop for HandlerError {
    fn drop(self) {
        match self {
            HandlerError::LibDiffers(_text)
            | HandlerError::MissingFile(_text)
            | HandlerError::VsnMismatch(_text)
            | HandlerError::NoTable(_text) => {}
            HandlerError::BadFile(_path, _trouble) => {}
            HandlerError::NoSuchRelease
            | HandlerError::ExistingRelease
            | HandlerError::AlreadyInstalled
            | HandlerError::BadStatus(_)
            | HandlerError::Permanent
            | HandlerError::Running
            | HandlerError::TooMany
            | HandlerError::Device
            | HandlerError::Full
            | HandlerError::Dead
            | HandlerError::NoMemory
            | HandlerError::NoMatchingRelup
            | HandlerError::Exists => {}
        }
    }
}

impl HandlerError {
    // The word with which it is shown.
    fn word(&self) -> &'static str {
        match self {
            HandlerError::NoSuchRelease => "NoSuchRelease",
            HandlerError::ExistingRelease => "ExistingRelease",
            HandlerError::AlreadyInstalled => "AlreadyInstalled",
            HandlerError::BadStatus(_) => "BadStatus",
            HandlerError::Permanent => "Permanent",
            HandlerError::Running => "Running",
            HandlerError::LibDiffers(_) => "LibDiffers",
            HandlerError::BadFile(..) => "BadFile",
            HandlerError::MissingFile(_) => "MissingFile",
            HandlerError::VsnMismatch(_) => "VsnMismatch",
            HandlerError::NoTable(_) => "NoTable",
            HandlerError::TooMany => "TooMany",
            HandlerError::Device => "Device",
            HandlerError::Full => "Full",
            HandlerError::Dead => "Dead",
            HandlerError::NoMemory => "NoMemory",
            HandlerError::NoMatchingRelup => "NoMatchingRelup",
            HandlerError::Exists => "Exists",
        }
    }
}

// As it would be derived, with an arm for each kind of value in place of one for each variant: a proof is as long as the arms.
impl Debug for HandlerError {
    fn fmt<W: fmt::Write>(&self, f: &mut Formatter<W>) -> fmt::Result {
        let word = self.word();
        match self {
            HandlerError::BadStatus(status) => f.debug_tuple(word).field(status).finish(),
            HandlerError::BadFile(path, trouble) => {
                f.debug_tuple(word).field(path).field(trouble).finish()
            }
            HandlerError::LibDiffers(name)
            | HandlerError::MissingFile(name)
            | HandlerError::VsnMismatch(name)
            | HandlerError::NoTable(name) => f.debug_tuple(word).field(name).finish(),
            _ => f.write_str(word),
        }
    }
}

impl Display for HandlerError {
    fn fmt<W: fmt::Write>(&self, f: &mut Formatter<W>) -> fmt::Result {
        f.write_str(self.word())?;
        match self {
            HandlerError::BadStatus(status) => write!(f, " {}", status.as_str()),
            HandlerError::BadFile(path, trouble) => write!(f, " {path} {trouble}"),
            HandlerError::LibDiffers(name)
            | HandlerError::MissingFile(name)
            | HandlerError::VsnMismatch(name)
            | HandlerError::NoTable(name) => write!(f, " {name}"),
            _ => Ok(()),
        }
    }
}

impl From<ListError> for HandlerError {
    ghost from_gives = { λ e h. h ≡ list_refusal e };

    fn from(error: ListError) -> HandlerError {
        match error {
            ListError::NoSuchRelease => HandlerError::NoSuchRelease,
            ListError::ExistingRelease => HandlerError::ExistingRelease,
            ListError::AlreadyInstalled => HandlerError::AlreadyInstalled,
            ListError::BadStatus(status) => HandlerError::BadStatus(status),
            ListError::Permanent => HandlerError::Permanent,
            ListError::Running => HandlerError::Running,
            // Libraries that differ are asked before the event is, and reported by name.
            ListError::LibDiffers | ListError::NoMemory => HandlerError::NoMemory,
        }
    }
}

impl From<UnpackError> for HandlerError {
    ghost from_gives = { λ e h. h ≡ reported_files e };

    fn from(error: UnpackError) -> HandlerError {
        match error {
            UnpackError::MissingFile(path) => HandlerError::MissingFile(path),
            UnpackError::BadFile(path, trouble) => HandlerError::BadFile(path, trouble),
            UnpackError::VsnMismatch(path) => HandlerError::VsnMismatch(path),
            UnpackError::LibDiffers(app) => HandlerError::LibDiffers(app),
            UnpackError::NoTable(name) => HandlerError::NoTable(name),
            UnpackError::TooMany => HandlerError::TooMany,
            UnpackError::NoMemory => HandlerError::NoMemory,
        }
    }
}

impl From<DeviceFault> for HandlerError {
    ghost from_gives = { λ _ e. e ≡ command.Device };

    fn from(_: DeviceFault) -> HandlerError {
        HandlerError::Device
    }
}

impl From<AllocError> for HandlerError {
    ghost from_gives = { λ _ e. e ≡ command.NoMemory };

    fn from(_: AllocError) -> HandlerError {
        HandlerError::NoMemory
    }
}

impl<T: Drop> From<AllocFailed<T>> for HandlerError {
    ghost from_gives = { λ _ e. e ≡ command.NoMemory };

    fn from(_: AllocFailed<T>) -> HandlerError {
        HandlerError::NoMemory
    }
}
