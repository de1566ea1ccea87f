//! The calls that the handler makes itself, while no pass is lent.
ghost use Rattle.std.specs.Prelude.{◌≡◌, []};
ghost use Rattle.proc_table.specs.Alone.{AnswersAlone};

use crate::{HandlerSeat, Pid, ProcTable, Tried};
use std::sync::Wait;

impl ProcTable {
    /// A call of the process by a pass that is made for it and taken back, while no other pass is out. So nothing stands in the
    /// history between what the handler had seen and the call. It waits, as `call` does.
    pub fn call_alone<R: Wait>(&self, rt: &R, seat: &mut HandlerSeat, pid: Pid, input: u32) -> Tried
        requires table { seat.old.table ≡ self.now }
        requires alone { seat.old.view.lent ≡ [] }
        ensures table { seat.new.table ≡ seat.old.table }
        ensures alone { seat.new.view.lent ≡ [] }
        ensures answer { AnswersAlone pid.slot pid.round input
            seat.old.view result seat.new.view }
    {
        let mut pass = self.new_pass(seat);
        let answer = self.call(rt, &mut pass, pid, input);
        self.take_back(seat, pass);
        answer
    }
}
