//! What a worker is sent, and what it answers.
ghost use Rattle.std.specs.Prelude.{◌≡◌, ◌↔◌, IsTrue};
ghost use Rattle.proc_workers.specs.Processes.{IsProcess};

use proc_table::{Pid, Tried};

/// A call that a worker is to make. It answers to its number.
#[derive(Clone, Copy)]
pub struct Job {
    pub number: u32,
    pub pid: Pid,
    pub input: u32,
}

impl Job {
    /// Whether it is a call of this process.
    pub fn names(&self, pid: Pid) -> bool
        ensures { IsTrue result ↔ IsProcess pid self.now.pid }
    {
        self.pid.slot == pid.slot && self.pid.round == pid.round
    }

    /// Whether it is a call of this process with this input.
    pub fn is_of(&self, pid: Pid, input: u32) -> bool
        ensures { IsTrue result ↔ ((self.now.input ≡ input) × IsProcess pid self.now.pid) }
    {
        self.input == input && self.names(pid)
    }
}

/// What a mailbox holds.
#[derive(Clone, Copy)]
pub enum Note {
    Job(Job),
    /// Jobs after it are kept.
    Suspend,
    /// Jobs that were kept are done, and those after it.
    Resume,
    /// The worker ends, and hands back the jobs that it kept.
    Stop,
}

/// A job, and what its call answered: never `Busy` or `Held`.
#[derive(Clone, Copy)]
pub struct Answer {
    pub number: u32,
    pub pid: Pid,
    pub input: u32,
    pub tried: Tried,
}
