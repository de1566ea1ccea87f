//! The instructions of a script (OTP: relup(4), appup(4)).

use erl_term::Term;

/// Whether a script leads to a higher release or back to a lower one.
#[derive(Clone, Copy)]
pub enum Direction {
    Up,
    Down,
}

/// How long a process is given to be suspended.
#[derive(Clone, Copy)]
pub enum Timeout {
    Default,
    Infinity,
    /// Not below 0.
    Milliseconds(i64),
}

/// How processes that run old code are purged.
#[derive(Clone, Copy)]
pub enum PurgeMode {
    /// `soft_purge`
    Soft,
    /// `brutal_purge`
    Brutal,
}

/// `{App, Vsn, [Mod]}`: modules of a library.
pub struct Fetch {
    pub app: String,
    pub vsn: String,
    pub modules: Vec<String>,
}

// Let go by one call: a derived drop would stand field by field at each exit of a caller.
impl Drop for Fetch {
    fn drop(self) {
        let Fetch {
            app: _app,
            vsn: _vsn,
            modules: _modules,
        } = self;
    }
}

/// `Mod` or `{Mod, Timeout}`.
#[derive(Drop)]
pub struct Suspension {
    pub name: String,
    pub timeout: Option<Timeout>,
}

/// `{Mod, PrePurge, PostPurge}`.
#[derive(Drop)]
pub struct Purging {
    pub name: String,
    pub pre: PurgeMode,
    pub post: PurgeMode,
}

/// `{Mod, Extra}`.
#[derive(Drop)]
pub struct Change {
    pub name: String,
    pub extra: Term,
}

/// `Mode, [{Mod, Extra}]`; where no mode is written it is up.
#[derive(Drop)]
pub struct Conversion {
    pub mode: Option<Direction>,
    pub changes: Vec<Change>,
}

/// `{M, F, A}`.
pub struct Call {
    pub name: String,
    pub function: String,
    pub args: Vec<Term>,
}

// Let go by one call: a derived drop would stand field by field at each exit of a caller.
impl Drop for Call {
    fn drop(self) {
        let Call {
            name: _name,
            function: _function,
            args: _args,
        } = self;
    }
}

/// An instruction of a script.
pub enum Instr {
    LoadObjectCode(Fetch),
    PointOfNoReturn,
    Suspend(Vec<Suspension>),
    Load(Purging),
    CodeChange(Conversion),
    Resume(Vec<String>),
    Remove(Purging),
    Purge(Vec<String>),
    Stop(Vec<String>),
    Start(Vec<String>),
    Apply(Call),
    /// With what follows the word.
    SyncNodes(Vec<Term>),
    RestartNewEmulator,
    RestartEmulator,
}

// Let go by one call: a derived drop would stand field by field at each exit of a caller.
impl Drop for Instr {
    fn drop(self) {
        match self {
            Instr::LoadObjectCode(_fetch) => {}
            Instr::Suspend(_suspensions) => {}
            Instr::Load(_purging) | Instr::Remove(_purging) => {}
            Instr::CodeChange(_conversion) => {}
            Instr::Resume(_names)
            | Instr::Purge(_names)
            | Instr::Stop(_names)
            | Instr::Start(_names) => {}
            Instr::Apply(_call) => {}
            Instr::SyncNodes(_rest) => {}
            Instr::PointOfNoReturn | Instr::RestartNewEmulator | Instr::RestartEmulator => {}
        }
    }
}
