//! Why no relup is made, without memory of its own.
ghost use Rattle.std.specs.Prelude.{◌≡◌, IfOk};
ghost use Rattle.relup_translate.specs.Fault.{fault_of, Says};

use crate::TranslateError;
use std::alloc::{AllocError, Global};

// The reasons in the order of their kinds, with the application that is asked, the version or the module.
#[derive(Clone, Copy)]
pub(crate) enum TranslationFault<'a> {
    NoAppup(&'a str),
    NoEntry(&'a str, &'a str),
    UnknownModule(&'a str),
    RegexVersion(&'a str),
    NeedsNewEmulator,
    Unsupported(&'a str),
}

impl TranslationFault<'_> {
    // The error that says this.
    pub(crate) fn error(self, alloc: Global) -> TranslateError
        ensures { Says result (fault_of self.entry) }
    {
        match self.error_or_none(alloc) {
            Ok(error) => error,
            Err(_) => TranslateError::NoMemory,
        }
    }

    fn error_or_none(self, alloc: Global) -> Result<TranslateError, AllocError>
        ensures { IfOk result (λ e. Says e (fault_of self.entry)) }
    {
        match self {
            TranslationFault::NoAppup(app) => {
                String::from_str(alloc, app).map(TranslateError::NoAppup)
            }
            TranslationFault::NoEntry(app, vsn) => Ok(TranslateError::NoEntry(
                String::from_str(alloc, app)?,
                String::from_str(alloc, vsn)?,
            )),
            TranslationFault::UnknownModule(name) => {
                String::from_str(alloc, name).map(TranslateError::UnknownModule)
            }
            TranslationFault::RegexVersion(app) => {
                String::from_str(alloc, app).map(TranslateError::RegexVersion)
            }
            TranslationFault::NeedsNewEmulator => Ok(TranslateError::NeedsNewEmulator),
            TranslationFault::Unsupported(app) => {
                String::from_str(alloc, app).map(TranslateError::Unsupported)
            }
        }
    }
}
