//! A host that makes files, as a replacement uses it.
ghost use Rattle.std.specs.Prelude.{OnOk, OnErr};
ghost use Rattle.file_replacement.specs.Calls.{made, wrote, synced, renamed, synced_folder, removed};

use std::fs::{self, Files, OpenFile, OpenOptions};
use std::io;
use std::io::ErrorKind;
use std::os::unix::fs::FileExt;

/// A host that makes files.
///
/// What its ghosts mean is up to each host, and code that is generic in the host learns them from the calls alone. So where a
/// contract over every host says that a call was done, the body has done it.
pub trait NewFiles {
    ghost use Rattle.file_replacement.specs.Calls.{Call, made, wrote, synced, renamed, synced_folder, removed};

    /// This call was done, and has led from the one state of the host to the other.
    ghost did: { Call → Self → Self → Type 0 };

    /// This call has failed, and has led from the one state of the host to the other.
    ghost failed: { Call → Self → Self → Type 0 };

    /// Makes a file of this path, which is not there yet.
    fn make(&mut self, path: &str) -> io::Result<()>
        ensures done { OnOk result (did (made path.now) self.old self.new) }
        ensures failed { OnErr result (failed (made path.now) self.old self.new) };

    /// Writes all these bytes into the file that was made last, which has none.
    fn write(&mut self, bytes: &[u8]) -> io::Result<()>
        ensures done { OnOk result (did (wrote bytes.now) self.old self.new) }
        ensures failed { OnErr result (failed (wrote bytes.now) self.old self.new) };

    /// Makes the bytes of the file that was made last outlive a crash.
    fn sync(&mut self) -> io::Result<()>
        ensures done { OnOk result (did synced self.old self.new) }
        ensures failed { OnErr result (failed synced self.old self.new) };

    /// Gives a file another path. What was there is there no more.
    fn rename(&mut self, from: &str, to: &str) -> io::Result<()>
        ensures done { OnOk result (did (renamed from.now to.now) self.old self.new) }
        ensures failed { OnErr result (failed (renamed from.now to.now) self.old self.new) };

    /// Makes the paths in the folder of this one outlive a crash.
    fn sync_folder_of(&mut self, path: &str) -> io::Result<()>
        ensures done { OnOk result (did (synced_folder path.now) self.old self.new) }
        ensures failed { OnErr result (failed (synced_folder path.now) self.old self.new) };

    /// Removes the file of this path.
    fn remove(&mut self, path: &str) -> io::Result<()>
        ensures done { OnOk result (did (removed path.now) self.old self.new) }
        ensures failed { OnErr result (failed (removed path.now) self.old self.new) };
}

/// The files of a host's file system, with the one that was made last.
#[derive(Drop)]
pub struct HostFolder<H: Files + Drop> {
    host: H,
    file: Option<H::File>,
}

impl<H: Files + Drop> HostFolder<H> {
    /// The files of this host.
    pub fn new(host: H) -> Self {
        HostFolder { host, file: None }
    }
}

/// Files of which no clause can say what becomes of them.
impl<H: Files + Drop> NewFiles for HostFolder<H>
where
    H::File: FileExt + OpenFile + Drop,
{
    ghost did = { λ call before after. Unit {0} };

    ghost failed = { λ call before after. Unit {0} };

    fn make(&mut self, path: &str) -> io::Result<()> {
        let file = OpenOptions::new()
            .write(true)
            .create_new(true)
            .open(&self.host, path)?;
        self.file = Some(file);
        Ok(())
    }

    fn write(&mut self, bytes: &[u8]) -> io::Result<()> {
        match &self.file {
            Some(file) => file.write_all_at(bytes, 0),
            None => Err(io::Error::from(ErrorKind::InvalidInput)),
        }
    }

    fn sync(&mut self) -> io::Result<()> {
        match &self.file {
            Some(file) => file.sync_all(),
            None => Err(io::Error::from(ErrorKind::InvalidInput)),
        }
    }

    fn rename(&mut self, from: &str, to: &str) -> io::Result<()> {
        fs::rename(&self.host, from, to)
    }

    fn sync_folder_of(&mut self, path: &str) -> io::Result<()> {
        fs::open(&self.host, folder_of(path))?.sync_all()
    }

    fn remove(&mut self, path: &str) -> io::Result<()> {
        fs::remove_file(&self.host, path)
    }
}

// The folder of a file.
fn folder_of(path: &str) -> &str {
    match path.rsplit_once('/') {
        None => ".",
        Some(("", _)) => "/",
        Some((folder, _)) => folder,
    }
}
