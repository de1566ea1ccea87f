//! A relup, as its file has it.
use erl_term::Term;
use relup_instruction::Instr;

/// The script between a release and another one.
pub struct RelupEntry {
    /// The version of the other release.
    pub vsn: String,
    /// What the file says about the script: any term.
    pub descr: Term,
    /// Where the file has no instructions it is the point of no return alone.
    pub script: Vec<Instr>,
}

// Let go by one call: a derived drop would stand field by field at each exit of a caller.
impl Drop for RelupEntry {
    fn drop(self) {
        let RelupEntry {
            vsn: _vsn,
            descr: _descr,
            script: _script,
        } = self;
    }
}

/// What a relup file says.
pub struct Relup {
    /// The version of the release that the file belongs to.
    pub vsn: String,
    /// The upgrades to this release, each with the version that it starts from.
    pub ups: Vec<RelupEntry>,
    /// The downgrades from this release, each with the version that it leads to.
    pub downs: Vec<RelupEntry>,
}

// Let go by one call: a derived drop would stand field by field at each exit of a caller.
impl Drop for Relup {
    fn drop(self) {
        let Relup {
            vsn: _vsn,
            ups: _ups,
            downs: _downs,
        } = self;
    }
}
