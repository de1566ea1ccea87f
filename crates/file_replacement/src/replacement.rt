//! The replacement of a file.
ghost use Rattle.std.specs.Prelude.{◌≡◌, IfErr, OnOk, OnErr};
ghost use Rattle.file_replacement.specs.Calls.{made, replacement, Did, Stops, Tidies};

use crate::NewFiles;
use std::io::ErrorKind;
use thiserror::Error;

/// Why a file isn't replaced. The path leads to what was there before, but for a folder that isn't synced.
#[derive(Clone, Copy, Debug, PartialEq, Eq, Error)]
pub enum ReplaceError {
    /// The new file is there already.
    #[error("the new file is there already")]
    Exists,
    #[error("the new file can't be made")]
    Make,
    #[error("the new file can't be written")]
    Write,
    #[error("the new file can't be synced")]
    Sync,
    #[error("the new file can't be renamed")]
    Rename,
    /// The path leads to the new text now, and a crash may leave the old one.
    #[error("the folder can't be synced")]
    SyncFolder,
}

/// Puts a text into the file of a path, by a new file beside it: that is made, written, synced and renamed, and then the folder
/// is synced. Where a call fails after the new file was made and before it was renamed, the new file is removed.
pub fn replace_file<H: NewFiles>(
    host: &mut H,
    path: &str,
    new: &str,
    text: &[u8],
) -> Result<(), ReplaceError>
    ensures replaced { OnOk result
        (Did H.did (replacement path.now new.now text.now) host.old host.new) }
    ensures stopped { IfErr result (λ e.
        Stops H.did H.failed e path.now new.now text.now host.old host.new) }
{
    if let Err(error) = host.make(new) {
        return Err(match error.kind() {
            ErrorKind::AlreadyExists => ReplaceError::Exists,
            _ => ReplaceError::Make,
        });
    }
    if host.write(text).is_err() {
        return Err(give_up(host, new, ReplaceError::Write));
    }
    if host.sync().is_err() {
        return Err(give_up(host, new, ReplaceError::Sync));
    }
    if host.rename(new, path).is_err() {
        return Err(give_up(host, new, ReplaceError::Rename));
    }
    if host.sync_folder_of(path).is_err() {
        return Err(ReplaceError::SyncFolder);
    }
    Ok(())
}

// Removes the new file, if that can be done.
fn give_up<H: NewFiles>(host: &mut H, new: &str, why: ReplaceError) -> ReplaceError
    ensures same { result ≡ why }
    ensures tidied { Tidies H.did H.failed new.now host.old host.new }
{
    let _ = host.remove(new);
    why
}
