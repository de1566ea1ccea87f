//! In which slots a process can begin. The handler alone begins processes and gives them up, so its seat knows without taking a
//! word.
ghost use Rattle.std.specs.Prelude.{◌≡◌, ◌<◌, slice_set, MatchOption};
ghost use Rattle.proc_table.specs.Agrees.{slots};
ghost use Rattle.proc_table.specs.Free.{LowestFree, NoneFree, free_count};

use crate::{HandlerSeat, Pid, SLOTS};

impl HandlerSeat {
    /// The lowest slot in which a process can begin, and the round with which it would: one where no process stands, that the
    /// handler doesn't hold, and whose last round wasn't used. Nothing where there is none. It takes no memory and waits for
    /// nobody.
    pub fn lowest_free(&self) -> Option<Pid>
        ensures lowest { MatchOption result (NoneFree self.now.view)
            (λ pid. LowestFree self.now.view pid) }
        ensures handler { self.now.view.number ≡ 0 }
    {
        for slot in 0..SLOTS {
            if let Some(round) = self.next[slot] {
                return Some(Pid { slot, round });
            }
        }
        None
    }

    /// In how many slots a process can begin. It takes no memory and waits for nobody.
    pub fn free_count(&self) -> usize
        ensures { result ≡ free_count self.now.view }
    {
        let mut count = 0;
        for round in self.next.as_slice() {
            if round.is_some() {
                count += 1;
            }
        }
        count
    }
}

// The round with which a process can begin in the slot from now on.
pub(crate) fn note(next: &mut [Option<u32>; SLOTS], slot: usize, round: Option<u32>)
    requires { slot < slots }
    ensures { next.new ≡ slice_set next.old slot round }
{
    next[slot] = round;
}
