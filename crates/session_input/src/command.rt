//! A command of a session.
use crate::given::GivenFile;

/// A command of a session. Paths, versions, names of applications and ids are texts, which are compared byte by byte.
#[derive(Drop)]
pub enum Command {
    /// Gives the file of a path, in place of one that was given before.
    File(String, GivenFile),
    /// Makes a node that has the release of the file as its permanent one.
    Create(String),
    /// Takes the release of the file in, to be installed later.
    SetUnpacked(String),
    /// Installs the release of this version.
    Install(String),
    /// Reports the version and the description of the entry by which the release of this version would be installed. It changes
    /// nothing.
    Check(String),
    /// Makes the release of this version, the current one, permanent.
    Permanent(String),
    /// Takes the release of this version out of the list.
    Remove(String),
    /// Makes the old release of this version the permanent one, and boots the node.
    RebootOld(String),
    /// Boots the node on the disk.
    Boot,
    /// Reports what the node starts.
    Start,
    /// Lists the node's releases.
    Releases,
    /// Lists the node's processes.
    Procs,
    /// Lists the modules that the node has loaded.
    Modules,
    /// Reports the state of a process: the name of its application, and its id there.
    Peek(String, String),
    /// Calls a process: the name of its application, its id there, and the input.
    Call(String, String, u32),
    /// Calls a process so often from threads: the name of its application, its id there, the input, and how often.
    Flood(String, String, u32, u32),
    /// Makes the relup of the release of a file, up from those of the second files and down to those of the third.
    Relup(String, Vec<String>, Vec<String>),
    /// Ends the session.
    Quit,
    /// A line that says no command, or a file without its end.
    Bad,
}
