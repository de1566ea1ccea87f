//! Why no relup is made of files.
ghost use Rattle.std.specs.Prelude.{◌≡◌};
ghost use Rattle.release_relup.specs.declared.error.MakeError.TheVariants.{Files, Translation, NoMemory};

use crate::FoundInstr;
use rel_unpack::UnpackError;
use relup_by_patterns::BadPattern;
use relup_translate::TranslateError;
use std::alloc::{AllocError, AllocFailed};

/// Why no relup is made of files. `Files` and `Translation` may say that no memory was left, which says nothing of the files, as
/// `NoMemory` does.
#[derive(Drop)]
pub enum MakeError {
    /// A file isn't taken.
    Files(UnpackError),
    /// A pattern that a search comes to has a fault.
    Pattern(BadPattern),
    /// The translation has a fault.
    Translation(TranslateError),
    /// An instruction is one that `systools` refuses.
    Refused(FoundInstr),
    /// The relup would be deeper than a reader takes: more brackets would be open at once in its text.
    TooDeep,
    NoMemory,
}

impl From<UnpackError> for MakeError {
    ghost from_gives = { λ why e. e ≡ Files why };

    fn from(why: UnpackError) -> MakeError {
        MakeError::Files(why)
    }
}

impl From<TranslateError> for MakeError {
    ghost from_gives = { λ why e. e ≡ Translation why };

    fn from(why: TranslateError) -> MakeError {
        MakeError::Translation(why)
    }
}

impl From<AllocError> for MakeError {
    ghost from_gives = { λ _ e. e ≡ NoMemory };

    fn from(_: AllocError) -> MakeError {
        MakeError::NoMemory
    }
}

impl<T: Drop> From<AllocFailed<T>> for MakeError {
    ghost from_gives = { λ _ e. e ≡ NoMemory };

    fn from(_: AllocFailed<T>) -> MakeError {
        MakeError::NoMemory
    }
}
