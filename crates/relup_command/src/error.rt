//! Why no relup is made of files.
ghost use Rattle.std.specs.Prelude.{◌≡◌};
ghost use Rattle.relup_command.specs.declared.error.RelupError.TheVariants.{Files, Appups};

use rel_unpack::UnpackError;
use relup_translate::TranslateError;
use thiserror::Error;

/// Why no relup is made of files. Either may say that no memory was left, which says nothing of the files.
#[derive(Debug, Drop, Error)]
pub enum RelupError {
    /// A file isn't taken.
    #[error("{0}")]
    Files(UnpackError),
    /// The appups give no relup.
    #[error("{0}")]
    Appups(TranslateError),
}

impl From<UnpackError> for RelupError {
    ghost from_gives = { λ why e. e ≡ Files why };

    fn from(why: UnpackError) -> RelupError {
        RelupError::Files(why)
    }
}

impl From<TranslateError> for RelupError {
    ghost from_gives = { λ why e. e ≡ Appups why };

    fn from(why: TranslateError) -> RelupError {
        RelupError::Appups(why)
    }
}
