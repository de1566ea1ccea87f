//! Why a release isn't installed.
ghost use Rattle.std.specs.Prelude.{◌≡◌, IfOk, string_bytes};
ghost use Rattle.node_command.specs.declared.error.HandlerError.TheVariants as command;
ghost use Rattle.node_upgrade.specs.declared.error.InstallError.TheVariants.{Command};

use node_command::HandlerError;
use relup_exec::Cause;
use relup_file::ScriptFault;
use std::alloc::{AllocError, Global};

/// Why a script isn't carried out to its end.
#[derive(Drop)]
pub enum Why {
    /// The release has another version of the runtime system than the one that runs.
    NewEmulator,
    /// The script has no point of no return.
    NoPoint,
    /// The script has more than one point of no return.
    TwoPoints,
    /// The instruction stands on the wrong side of the point.
    Misplaced,
    /// The instruction fails, or can't be run anywhere.
    Fails(Cause),
}

/// A script that isn't carried out to its end.
#[derive(Drop)]
pub struct ScriptFailure {
    /// The number of the instruction, counted from 1: 0 where no instruction is at fault.
    pub instr: u32,
    pub why: Why,
}

/// Why a release isn't installed.
#[derive(Drop)]
pub enum InstallError {
    /// The command is refused for its release, its relup, the store or memory, and nothing has changed; or the device failed
    /// after the script.
    Command(HandlerError),
    /// The script isn't run, or an instruction before its point of no return fails. Nothing has changed.
    Refused(ScriptFailure),
    /// An instruction after the point of no return fails. What was done stays, and the node has to boot.
    MustReboot(ScriptFailure),
}

impl ScriptFailure {
    ghost use Rattle.node_upgrade.specs.Failure.{failure_of, failure_text, fault_failure};

    /// The number of the instruction, and the cause.
    pub fn text(&self, alloc: Global) -> Result<String, AllocError>
        ensures { IfOk result (λ s. string_bytes s ≡ failure_text (failure_of self.now)) }
    {
        let why = self.why.text(alloc)?;
        let instr = self.instr;
        format!(in alloc; "{instr} {why}")
    }

    // What the check of a script reports.
    pub(crate) fn of_fault(fault: ScriptFault) -> ScriptFailure
        ensures { failure_of result ≡ fault_failure fault }
    {
        match fault {
            ScriptFault::NoPoint => ScriptFailure {
                instr: 0,
                why: Why::NoPoint,
            },
            ScriptFault::TwoPoints => ScriptFailure {
                instr: 0,
                why: Why::TwoPoints,
            },
            ScriptFault::Misplaced(instr) => ScriptFailure {
                instr,
                why: Why::Misplaced,
            },
            ScriptFault::Unsupported(instr) => ScriptFailure {
                instr,
                why: Why::Fails(Cause::Unsupported),
            },
        }
    }
}

impl Why {
    ghost use Rattle.node_upgrade.specs.Failure.{why_of, why_text};

    fn text(&self, alloc: Global) -> Result<String, AllocError>
        ensures { IfOk result (λ s. string_bytes s ≡ why_text (why_of self.now)) }
    {
        match self {
            Why::NewEmulator => String::from_str(alloc, "NewEmulator"),
            Why::NoPoint => String::from_str(alloc, "NoPoint"),
            Why::TwoPoints => String::from_str(alloc, "TwoPoints"),
            Why::Misplaced => String::from_str(alloc, "Misplaced"),
            Why::Fails(cause) => cause.text(alloc),
        }
    }
}

impl From<HandlerError> for InstallError {
    ghost from_gives = { λ e i. i ≡ Command e };

    fn from(error: HandlerError) -> InstallError {
        InstallError::Command(error)
    }
}

impl From<AllocError> for InstallError {
    ghost from_gives = { λ _ i. i ≡ Command command.NoMemory };

    fn from(_: AllocError) -> InstallError {
        InstallError::Command(HandlerError::NoMemory)
    }
}
