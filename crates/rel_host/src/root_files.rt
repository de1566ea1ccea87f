// Files below a folder of the host.
ghost use Rattle.std.specs.Prelude.{◌≡◌, ◌≢◌, ◌≤◌, ◌↔◌, IsTrue, true, Ok, Err, IfOk, IfErr, length};
ghost use Rattle.rel_host.specs.Paths.{climbs, HasFolder, IsBelow, Gives};

use crate::readers::read_within;
use file_source::{Files, FilesError};
use std::alloc::{AllocError, Global};
use std::io::ErrorKind;
use std::path::{Path, PathBuf};
use std::{fs, io, rt};

/// The most bytes of a file.
const MOST_BYTES: usize = 1_048_576;

/// Files by their paths below a folder. Without a folder, or with one of the empty name, there is none.
///
/// A path is Missing where it doesn't lead below the folder ([`is_below`]), also by a symbolic link, where nothing is there, where
/// it goes through a file that is no folder, and where a name in it is too long for the host. A folder, and what can't be read, is
/// Unreadable. Of a longer file than 1,048,576 bytes one byte more is read at most. The host is asked where a path leads, and then
/// for the file: what becomes of a link in between is the host's.
#[derive(Drop)]
pub struct RootFiles<R: rt::Files + Drop> {
    host: R,
    /// The folder.
    pub root: Option<String>,
}

impl<R: rt::Files + Drop> RootFiles<R> {
    /// The files below this folder of the host.
    pub fn new(host: R, root: Option<String>) -> Self
        ensures { result.root ≡ root }
    {
        RootFiles { host, root }
    }

    // Where the path leads below this folder, after all links.
    fn resolve(&self, alloc: Global, root: &str, path: &str) -> Result<PathBuf, FilesError> {
        let Ok(whole) = joined(alloc, root, path) else {
            return Err(FilesError::NoMemory);
        };
        let folder = self.host.canonicalize(alloc, root).map_err(files_error)?;
        let found = self
            .host
            .canonicalize(alloc, whole.as_str())
            .map_err(files_error)?;
        if found.starts_with(folder.as_path()) {
            Ok(found)
        } else {
            Err(FilesError::Missing)
        }
    }

    // Reads what is there, which is a file.
    fn read_file(&self, alloc: Global, path: Path<'_>) -> Result<Vec<u8>, FilesError>
        ensures short { IfOk result (λ bytes. length bytes.items ≤ 1048576) }
    {
        if !fs::metadata(&self.host, path)
            .map_err(files_error)?
            .is_file()
        {
            return Err(FilesError::Unreadable);
        }
        let file = fs::open(&self.host, path).map_err(files_error)?;
        match read_within(alloc, file, MOST_BYTES).map_err(files_error)? {
            Some(bytes) => Ok(bytes),
            None => Err(FilesError::TooLarge),
        }
    }
}

impl<R: rt::Files + Drop> Files for RootFiles<R> {
    ghost gives = { λ files. Gives files.root };

    fn read(&self, alloc: Global, path: &str) -> Result<Vec<u8>, FilesError>
        ensures no_folder { (HasFolder self.now.root → ⊥) → result ≡ Err FilesError.Missing }
        ensures outside { (IsBelow path.now → ⊥) → result ≡ Err FilesError.Missing }

        // As of all files.
        ensures read { IfOk result (λ bytes. Gives self.now.root path.now (Ok bytes.items)) }
        ensures short { IfOk result (λ bytes. length bytes.items ≤ 1048576) }
        ensures refused { IfErr result (λ e. e ≢ FilesError.NoMemory
            → Gives self.now.root path.now (Err e)) }
    {
        let Some(root) = &self.root else {
            return Err(FilesError::Missing);
        };
        if root.is_empty() || !is_below(path) {
            return Err(FilesError::Missing);
        }
        let found = self.resolve(alloc, root.as_str(), path)?;
        self.read_file(alloc, found.as_path())
    }
}

// The path of a file below a folder.
fn joined(alloc: Global, root: &str, path: &str) -> Result<String, AllocError> {
    let mut whole = String::from_str(alloc, root)?;
    whole.push('/')?;
    whole.push_str(path)?;
    Ok(whole)
}

// What the host's fault says of a file.
fn files_error(error: io::Error) -> FilesError {
    match error.kind() {
        ErrorKind::NotFound | ErrorKind::NotADirectory | ErrorKind::InvalidFilename => {
            FilesError::Missing
        }
        ErrorKind::OutOfMemory => FilesError::NoMemory,
        _ => FilesError::Unreadable,
    }
}

/// Whether a path leads below the folder in which it begins: it isn't empty, doesn't begin with `/`, and has no part `..` and no
/// byte 0.
pub fn is_below(path: &str) -> bool
    ensures { IsTrue result ↔ IsBelow path.now }
{
    let bytes = path.as_bytes();
    !bytes.is_empty() && bytes[0] != b'/' && !bytes.contains(&0) && !has_part_up(path)
}

// Whether a path has a part `..`.
fn has_part_up(path: &str) -> bool
    ensures { result ≡ climbs path.now }
{
    let mut rest = path;
    while let Some((part, behind)) = rest.split_once('/') {
        if part == ".." {
            return true;
        }
        rest = behind;
    }
    rest == ".."
}
