//! An appup, as its file has it.
use crate::AppupInstr;

/// The version of an application at the other end of an entry.
#[derive(Drop)]
pub enum OtherVersion {
    /// This version.
    Text(String),
    /// The versions that a regular expression matches, which a binary is.
    Pattern(Vec<u8>),
}

/// The instructions between a version of an application and another one.
pub struct AppupEntry {
    pub vsn: OtherVersion,
    pub instrs: Vec<AppupInstr>,
}

// Let go by one call: a derived drop would stand field by field at each exit of a caller.
impl Drop for AppupEntry {
    fn drop(self) {
        let AppupEntry {
            vsn: _vsn,
            instrs: _instrs,
        } = self;
    }
}

/// What an appup file says.
pub struct Appup {
    /// The version of the application that the file belongs to.
    pub vsn: String,
    /// The upgrades to this version, each with the version that it starts from.
    pub ups: Vec<AppupEntry>,
    /// The downgrades from this version, each with the version that it leads to.
    pub downs: Vec<AppupEntry>,
}

// Let go by one call: a derived drop would stand field by field at each exit of a caller.
impl Drop for Appup {
    fn drop(self) {
        let Appup {
            vsn: _vsn,
            ups: _ups,
            downs: _downs,
        } = self;
    }
}
