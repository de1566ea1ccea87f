//! The instructions of an appup (OTP: appup(4)). What is not written of one has its default.

use erl_term::Term;
use rel_files::StartType;
use relup_instruction::{Instr, PurgeMode, Timeout};

/// Whether the processes of a module go over to new code of it by themselves.
#[derive(Clone, Copy)]
pub enum ModType {
    /// The processes don't. Code is loaded before states are changed, in both directions.
    Static,
    /// The processes do. Going down, states are changed before code is loaded. The default.
    Dynamic,
}

/// What an update asks of the processes of a module.
#[derive(Drop)]
pub enum StateChange {
    /// Their states stay. The default.
    Soft,
    /// `{advanced, Extra}`: their states are changed, with this term.
    Advanced(Term),
}

/// `{update, Mod, ModType, Timeout, Change, PrePurge, PostPurge, DepMods}`.
pub struct Update {
    pub name: String,
    pub mod_type: ModType,
    /// `default` by default.
    pub timeout: Timeout,
    pub change: StateChange,
    /// `brutal_purge` by default, as is the other.
    pub pre: PurgeMode,
    pub post: PurgeMode,
    /// The modules on which it depends, none by default.
    pub dep_mods: Vec<String>,
}

// Let go by one call: a derived drop would stand field by field at each exit of a caller.
impl Drop for Update {
    fn drop(self) {
        let Update {
            name: _name,
            mod_type: _mod_type,
            timeout: _timeout,
            change: _change,
            pre: _pre,
            post: _post,
            dep_mods: _dep_mods,
        } = self;
    }
}

/// `{load_module, Mod, PrePurge, PostPurge, DepMods}`.
#[derive(Drop)]
pub struct ModuleLoad {
    pub name: String,
    /// `brutal_purge` by default, as is the other.
    pub pre: PurgeMode,
    pub post: PurgeMode,
    /// The modules on which it depends, none by default.
    pub dep_mods: Vec<String>,
}

/// `{add_module, Mod, DepMods}` or `{delete_module, Mod, DepMods}`, without the word.
#[derive(Drop)]
pub struct Dependent {
    pub name: String,
    /// The modules on which it depends, none by default.
    pub dep_mods: Vec<String>,
}

/// `{add_application, Application, Type}`.
#[derive(Drop)]
pub struct AddedApp {
    pub name: String,
    /// `permanent` by default.
    pub start: StartType,
}

/// An instruction of an appup.
pub enum AppupInstr {
    Update(Update),
    LoadModule(ModuleLoad),
    AddModule(Dependent),
    DeleteModule(Dependent),
    AddApplication(AddedApp),
    RemoveApplication(String),
    RestartApplication(String),
    /// An instruction that a relup may have too.
    LowLevel(Instr),
}

// Let go by one call: a derived drop would stand field by field at each exit of a caller.
impl Drop for AppupInstr {
    fn drop(self) {
        match self {
            AppupInstr::Update(_update) => {}
            AppupInstr::LoadModule(_load) => {}
            AppupInstr::AddModule(_module) | AppupInstr::DeleteModule(_module) => {}
            AppupInstr::AddApplication(_app) => {}
            AppupInstr::RemoveApplication(_name) | AppupInstr::RestartApplication(_name) => {}
            AppupInstr::LowLevel(_instr) => {}
        }
    }
}
