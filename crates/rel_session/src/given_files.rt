//! The files of a session.
//!
//! A release is read by `rel_unpack`, and `relup` is answered by `relup_command`, from the files that were given in the session
//! and after them those of a source.
ghost use Rattle.std.specs.Prelude.{◌≡◌, ◌≢◌, ◌≤◌, None, Some, Ok, Err, string_bytes, IfOk, IfErr, OnOk, length};
ghost use Rattle.session_input.specs.Commands.{given_of};
ghost use Rattle.rel_session.specs.Files.{give, no_files, read_of};

use file_source::{Files, FilesError};
use indexmap::IndexMap;
use session_input::{GivenFile, MOST_FILE};
use std::alloc::{AllocFailed, Global};

/// The files that were given, by their paths.
#[derive(Drop)]
pub struct GivenFiles {
    given: IndexMap<String, GivenFile>,
}

impl GivenFiles {
    ghost use Rattle.rel_session.specs.Files.{files_of};

    /// No file was given.
    pub fn new(alloc: Global) -> GivenFiles
        ensures { files_of result ≡ no_files }
    {
        GivenFiles {
            given: IndexMap::new(alloc),
        }
    }

    /// Keeps a file for its path, in place of one that was given before.
    pub fn give(
        &mut self,
        path: String,
        file: GivenFile,
    ) -> Result<(), AllocFailed<(String, GivenFile)>>
        ensures given { OnOk result
            (files_of self.new ≡ give (files_of self.old) (string_bytes path) (given_of file)) }
    {
        self.given.insert(path, file)?;
        Ok(())
    }
}

/// The files that were given, and those of a source after them.
#[derive(Drop)]
pub struct SessionFiles<'a, F: Files> {
    /// The files that were given.
    pub given: &'a GivenFiles,
    /// Where a file is read that wasn't given.
    pub base: &'a F,
}

impl<'a, F: Files> Files for SessionFiles<'a, F> {
    ghost use Rattle.rel_session.specs.Files.{files_of, source_of};

    ghost gives = { λ files. source_of (F.gives files.base.now) (files_of files.given.now) };

    fn read(&self, alloc: Global, path: &str) -> Result<Vec<u8>, FilesError> {
        match self.given.given.get(path) {
            Some(file) => read_given(alloc, file),
            None => self.base.read(alloc, path),
        }
    }
}

/// The bytes of a given file.
fn read_given(alloc: Global, file: &GivenFile) -> Result<Vec<u8>, FilesError>
    ensures read { IfOk result (λ bytes. Ok bytes.items ≡ read_of (given_of file.now)) }
    ensures short { IfOk result (λ bytes. length bytes.items ≤ 1048576) }
    ensures refused { IfErr result (λ e. e ≢ FilesError.NoMemory
        → Err e ≡ read_of (given_of file.now)) }
{
    match file {
        GivenFile::Bytes(bytes) if bytes.len() <= MOST_FILE => match Vec::from_slice(alloc, bytes) {
            Ok(copy) => Ok(copy),
            Err(_) => Err(FilesError::NoMemory),
        },
        _ => Err(FilesError::TooLarge),
    }
}
