//! Files by their paths.
ghost use Rattle.std.specs.Prelude.{◌≢◌, ◌≤◌, ℕ, List, length, Result, Ok, Err, IfOk, IfErr};

use std::alloc::Global;
use thiserror::Error;

/// Why a file isn't read.
#[derive(Clone, Copy, Debug, PartialEq, Eq, Error)]
pub enum FilesError {
    /// There is no file of this path.
    #[error("Missing")]
    Missing,
    /// The file has more than 1,048,576 bytes.
    #[error("TooLarge")]
    TooLarge,
    /// The file is there, and can't be read.
    #[error("Unreadable")]
    Unreadable,
    /// No memory was left. It says nothing of the file.
    #[error("NoMemory")]
    NoMemory,
}

/// Files by their paths, which are compared byte by byte.
pub trait Files {
    ghost use Rattle.file_source.specs.declared.files.FilesError.{FilesError};

    /// What a read of a path may give: the file's bytes, or why it isn't read. Of files that nobody changes it is one.
    ghost gives: { Self → List ℕ → Result (List ℕ) FilesError → Type 0 };

    /// The bytes of the file of this path.
    fn read(&self, alloc: Global, path: &str) -> Result<Vec<u8>, FilesError>
        ensures read { IfOk result (λ bytes. gives self.now path.now (Ok bytes.items)) }
        ensures short { IfOk result (λ bytes. length bytes.items ≤ 1048576) }
        ensures refused { IfErr result (λ e. e ≢ FilesError.NoMemory
            → gives self.now path.now (Err e)) };
}
