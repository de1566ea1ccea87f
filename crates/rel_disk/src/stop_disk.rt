// A disk that stops.
ghost use Rattle.std.specs.Prelude.{◌≡◌, false, []};
ghost use Rattle.rel_disk.specs.Calls.{content};
ghost use Rattle.rel_disk.specs.Images.{Image};
ghost use Rattle.rel_disk.specs.Picks.{IsLeft};
ghost use Rattle.rel_disk.specs.Plans.{turn_of_stop, after_stop_turn};

use crate::faulty_disk::FaultyDisk;
use crate::plan::{Plan, Turn};
use crate::{MemDisk, Pick};

/// A disk in memory that passes on so many calls which answer a `Result`. The next one fails: a write writes the first half of its
/// bytes, rounded down, and any other call does nothing. Each call after it fails and does nothing, as if the power had gone.
pub type StopDisk = FaultyDisk<MemDisk, Stop>;

/// How far a disk is from its stop.
#[derive(Clone, Copy)]
pub struct Stop {
    /// How many calls are still passed on.
    pub left: u64,
    /// Whether a call has failed for the stop.
    pub stopped: bool,
}

impl FaultyDisk<MemDisk, Stop> {
    /// Passes on this many calls.
    pub fn new(disk: MemDisk, calls: u64) -> Self
        ensures { result ≡ record {
          disk = disk;
          plan = record { left = calls; stopped = false };
          refused = 0;
        } }
    {
        FaultyDisk {
            disk,
            plan: Stop {
                left: calls,
                stopped: false,
            },
            refused: 0,
        }
    }

    /// A disk that begins with what a crash now leaves, by this pick: [`MemDisk::image`] of the disk within.
    pub fn image(self, pick: Pick) -> MemDisk
        ensures may_leave { Image self.disk.first self.disk.calls
            (content result.first result.calls) }
        ensures left { IsLeft pick self.disk.first self.disk.calls result.first }
        ensures fresh { result ≡ record {
          first = result.first;
          calls = [];
          capacity = self.disk.capacity;
          room = self.disk.room;
          failures = 0;
        } }
    {
        let FaultyDisk { disk, .. } = self;
        disk.image(pick)
    }
}

impl Plan for Stop {
    ghost turn_of = { turn_of_stop };

    ghost after_turn = { after_stop_turn };

    fn turn(&mut self) -> Turn {
        if self.left > 0 {
            self.left -= 1;
            return Turn::Passes;
        }
        if self.stopped {
            return Turn::Fails;
        }
        self.stopped = true;
        Turn::Stops
    }
}
