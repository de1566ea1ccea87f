//! The calls that wait.
ghost use Rattle.std.specs.Prelude.{◌≡◌};
ghost use Rattle.proc_table.specs.Waits.{AnswersAtLast, HeldAtLast};

use crate::{HandlerSeat, Held, Pass, Pid, ProcTable, Tried};
use std::sync::Wait;
use std::thread;

impl ProcTable {
    /// A call of the process, once neither a client nor the handler has it.
    pub fn call<R: Wait>(&self, rt: &R, pass: &mut Pass, pid: Pid, input: u32) -> Tried
        requires { pass.old.table ≡ self.now }
        ensures table { pass.new.table ≡ pass.old.table }
        ensures answer { AnswersAtLast pid.slot pid.round input pass.old.view result pass.new.view }
    {
        for _ in rt.forever() {
            match self.try_call(pass, pid, input) {
                Tried::Busy => thread::yield_now(),
                Tried::Held => thread::yield_now(),
                answer => return answer,
            }
        }
        unreachable!()
    }

    /// Holds the slot of the process, whatever its round, once nobody else has it.
    pub fn hold<R: Wait>(&self, rt: &R, seat: &mut HandlerSeat, pid: Pid) -> Held
        requires { seat.old.table ≡ self.now }
        ensures table { seat.new.table ≡ seat.old.table }
        ensures held { HeldAtLast pid.slot seat.old.view result seat.new.view }
    {
        for _ in rt.forever() {
            match self.try_hold(seat, pid) {
                Some(held) => return held,
                None => thread::yield_now(),
            }
        }
        unreachable!()
    }
}
