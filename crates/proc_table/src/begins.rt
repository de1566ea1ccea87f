//! A process that begins.
ghost use Rattle.std.specs.Prelude.{◌≡◌};
ghost use Rattle.proc_table.specs.Begins.{BeganAt, GaveUpAt};
ghost use Rattle.proc_table.specs.Free.{BeganLowest};

use crate::{HandlerSeat, Pid, ProcTable};
use proc_history::{Beginning, Entry};
use std::sync::Wait;

impl ProcTable {
    /// A process begins in the slot of the Pid, whatever its round, once no client has the slot. It doesn't where a process
    /// stands there, or where the last round was used.
    pub fn begin<R: Wait>(
        &self,
        rt: &R,
        seat: &mut HandlerSeat,
        pid: Pid,
        begins: Beginning,
    ) -> Result<Pid, Beginning>
        requires { seat.old.table ≡ self.now }
        ensures table { seat.new.table ≡ seat.old.table }
        ensures began { BeganAt pid.slot begins seat.old.view result seat.new.view }
    {
        let mut held = self.hold(rt, seat, pid);
        match held.begin(begins) {
            Ok(round) => {
                self.release(seat, held, &[Entry::Begin]);
                Ok(Pid {
                    slot: pid.slot,
                    round,
                })
            }
            Err(begins) => {
                self.release(seat, held, &[]);
                Err(begins)
            }
        }
    }
    /// A process begins in the lowest slot in which one can, once no client has the slot. Where there is none, nothing changes.
    pub fn begin_lowest<R: Wait>(
        &self,
        rt: &R,
        seat: &mut HandlerSeat,
        begins: Beginning,
    ) -> Result<Pid, Beginning>
        requires { seat.old.table ≡ self.now }
        ensures table { seat.new.table ≡ seat.old.table }
        ensures began { BeganLowest begins seat.old.view result seat.new.view }
    {
        match seat.lowest_free() {
            Some(pid) => self.begin(rt, seat, pid, begins),
            None => Err(begins),
        }
    }

    /// Nothing stands any more in the slot of the Pid, whatever its round.
    pub fn give_up<R: Wait>(&self, rt: &R, seat: &mut HandlerSeat, pid: Pid)
        requires { seat.old.table ≡ self.now }
        ensures table { seat.new.table ≡ seat.old.table }
        ensures gave_up { GaveUpAt pid.slot seat.old.view seat.new.view }
    {
        let mut held = self.hold(rt, seat, pid);
        held.give_up();
        self.release(seat, held, &[Entry::GivenUp]);
    }
}
