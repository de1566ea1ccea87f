// A disk that fails one call.
ghost use Rattle.std.specs.Prelude.{◌≡◌, false};
ghost use Rattle.rel_disk.specs.Plans.{turn_of_fault, after_fault_turn};

use crate::Disk;
use crate::faulty_disk::FaultyDisk;
use crate::plan::{Plan, Turn};

/// A disk of which one call that answers a `Result` fails. It does nothing, or it has a part of its effect: a write writes
/// half of its bytes, rounded up, and a cut and a sync are done whole. All others are those of the disk within.
pub type FailDisk<D> = FaultyDisk<D, Fault>;

/// Which call of a disk fails.
#[derive(Clone, Copy)]
pub struct Fault {
    /// How many calls are left up to the one that fails, which counts; 0 after it.
    pub left: u64,
    /// The call that fails has a part of its effect.
    pub in_part: bool,
}

impl<D: Disk> FaultyDisk<D, Fault> {
    /// Fails the call of this number, counted from 1. With 0 it fails none.
    pub fn new(disk: D, call: u64) -> Self
        ensures { result ≡ record {
          disk = disk;
          plan = record { left = call; in_part = false };
          refused = 0;
        } }
    {
        FailDisk::failing(disk, call, false)
    }

    /// Fails the call of this number, counted from 1. Where `in_part` is set, the call still has a part of its effect.
    pub fn failing(disk: D, call: u64, in_part: bool) -> Self
        ensures { result ≡ record {
          disk = disk;
          plan = record { left = call; in_part = in_part };
          refused = 0;
        } }
    {
        FaultyDisk {
            disk,
            plan: Fault {
                left: call,
                in_part,
            },
            refused: 0,
        }
    }
}

impl Plan for Fault {
    ghost turn_of = { turn_of_fault };

    ghost after_turn = { after_fault_turn };

    fn turn(&mut self) -> Turn {
        if self.left == 0 {
            return Turn::Passes;
        }
        self.left -= 1;
        if self.left > 0 {
            return Turn::Passes;
        }
        if self.in_part {
            return Turn::FailsInPart;
        }
        Turn::Fails
    }
}
