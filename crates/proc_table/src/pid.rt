//! The name of a process.
ghost use Rattle.std.specs.Prelude.{◌≡◌, ◌<◌, ◌≤◌, MatchOption};
ghost use Rattle.proc_table.specs.Agrees.{slots};

use crate::SLOTS;

/// A process: its slot, and the round in which it began there.
#[derive(Clone, Copy)]
pub struct Pid {
    pub slot: usize,
    pub round: u32,
    pub ghost inside: { slot < slots },
}

impl Pid {
    /// How many slots a table has: one more than the last slot.
    pub fn count() -> usize
        ensures { result ≡ slots }
    {
        SLOTS
    }

    /// Nothing for a slot past the last.
    pub fn new(slot: usize, round: u32) -> Option<Pid>
        ensures { MatchOption result (slots ≤ slot)
            (λ pid. (pid.slot ≡ slot) × (pid.round ≡ round)) }
    {
        if slot < SLOTS {
            Some(Pid { slot, round })
        } else {
            None
        }
    }
}
