//! The members of a started application: its processes and its supervisors.
ghost use Rattle.std.specs.Prelude.{◌≡◌};
ghost use Rattle.std.specs.Option.{option_map};
ghost use Rattle.started_members.specs.Members.{is_supervisor, process_in};

use mod_table::{ChildKind, Restart};
use proc_table::{Name, Pid};

/// A process that was started.
#[derive(Drop)]
pub struct StartedProcess {
    /// The id of its child specification.
    pub id: Name,
    /// The module that it runs.
    pub module: Name,
    /// Where it is.
    pub pid: Pid,
}

/// What stands for a member.
#[derive(Drop)]
pub enum MemberState {
    /// Nothing.
    Ended,
    /// A process.
    Process(StartedProcess),
    /// A supervisor, with the module with which it began.
    Supervisor(Name),
}

/// A member of an application: its top, or a child of one of its supervisors. The children of a supervisor stand after it, each
/// with its own before the next.
#[derive(Drop)]
pub struct Member {
    /// In how many supervisors it stands.
    pub depth: usize,
    /// The id of its child specification; of the top, its module.
    pub id: Name,
    /// The module that its child specification names.
    pub module: Name,
    /// When it is started again.
    pub restart: Restart,
    /// What it is.
    pub kind: ChildKind,
    /// What stands for it.
    pub state: MemberState,
}

impl Member {
    /// The process that stands for it, where one does.
    pub fn process(&self) -> Option<&StartedProcess>
        ensures { option_map (λ p. p.now) result ≡ process_in self.now }
    {
        match &self.state {
            MemberState::Process(process) => Some(process),
            MemberState::Ended | MemberState::Supervisor(_) => None,
        }
    }

    /// Whether a supervisor of this module stands for it.
    pub fn is_supervisor(&self, module: &str) -> bool
        ensures { result ≡ is_supervisor «module».now self.now.state }
    {
        match &self.state {
            MemberState::Supervisor(own) => own.as_str() == module,
            MemberState::Ended | MemberState::Process(_) => false,
        }
    }
}
