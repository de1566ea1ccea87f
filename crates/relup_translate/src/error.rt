//! Why no relup is made.
ghost use Rattle.std.specs.Prelude.{◌≡◌};
ghost use Rattle.relup_translate.specs.declared.error.TranslateError.TheVariants.{NoMemory};

use std::alloc::{AllocError, AllocFailed};
use std::fmt::{self, Display, Formatter};

/// Why no relup is made. The application is the one whose appup is asked. An error is shown by its name and its texts, with
/// blanks between.
#[derive(Debug, Drop)]
pub enum TranslateError {
    /// An application changes its version, and the higher release has no appup of its version there.
    NoAppup(String),
    /// The appup of this application has no entry for this version.
    NoEntry(String, String),
    /// No application of the target has this module. For a module that is deleted: the version of the application that is left
    /// doesn't have it.
    UnknownModule(String),
    /// The appup of this application has an entry of a regular expression, and none of the version before it.
    RegexVersion(String),
    /// The releases are for other versions of the runtime system, or an appup asks for a new one.
    NeedsNewEmulator,
    /// The appup of this application has an instruction that isn't translated.
    Unsupported(String),
    /// No memory was left. It says nothing of the releases.
    NoMemory,
}

impl From<AllocError> for TranslateError {
    ghost from_gives = { λ _ e. e ≡ NoMemory };

    fn from(_: AllocError) -> TranslateError {
        TranslateError::NoMemory
    }
}

impl<T: Drop> From<AllocFailed<T>> for TranslateError {
    ghost from_gives = { λ _ e. e ≡ NoMemory };

    fn from(_: AllocFailed<T>) -> TranslateError {
        TranslateError::NoMemory
    }
}

impl Display for TranslateError {
    ghost use Rattle.std.specs.Prelude.{Some};
    ghost use Rattle.relup_translate.specs.Fault.{translate_error_text};

    ghost output = { λ e. Some (translate_error_text e) };

    fn fmt<W: fmt::Write>(&self, f: &mut Formatter<W>) -> fmt::Result {
        match self {
            TranslateError::NoAppup(app) => write!(f, "NoAppup {app}"),
            TranslateError::NoEntry(app, vsn) => write!(f, "NoEntry {app} {vsn}"),
            TranslateError::UnknownModule(name) => write!(f, "UnknownModule {name}"),
            TranslateError::RegexVersion(app) => write!(f, "RegexVersion {app}"),
            TranslateError::NeedsNewEmulator => f.write_str("NeedsNewEmulator"),
            TranslateError::Unsupported(app) => write!(f, "Unsupported {app}"),
            TranslateError::NoMemory => f.write_str("NoMemory"),
        }
    }
}

impl std::error::Error for TranslateError {}
