//! The calls of a client.
ghost use Rattle.std.specs.Prelude.{◌≡◌, ◌≢◌, []};
ghost use Rattle.proc_table.specs.Calls.{Answers, Shows, tried_of, peeked_of};
ghost use Rattle.proc_history.specs.Histories.{replay};
ghost use Rattle.proc_history.specs.Outcomes.{outcome_in, state_in, call_entries};
ghost use Rattle.proc_table.specs.Steps.{Adding, InHand, given};
ghost use Rattle.proc_table.specs.Views.{seen};

use crate::place::place_of;
use crate::rule::Adds;
use crate::{Pass, Peeked, Pid, ProcTable, Tried, View};
use atomic_table::Seat;
use proc_history::{Outcome, Value};
use std::marker::Brand;

impl ProcTable {
    /// A call of the process. Its answer goes by a take of the slot in this call. It takes no memory and waits for nobody.
    pub fn try_call(&self, pass: &mut Pass, pid: Pid, input: u32) -> Tried
        requires { pass.old.table ≡ self.now }
        ensures table { pass.new.table ≡ pass.old.table }
        ensures answer { Answers pid.slot pid.round input pass.old.view result pass.new.view }
    {
        let found = self.take(&mut pass.seat, pid.slot, 1);
        if found == 1 {
            return Tried::Busy;
        }
        if found != 0 {
            return Tried::Held;
        }
        let outcome = self.run(&mut pass.seat, pid, input);
        Tried::of(outcome)
    }

    /// The state of the process, by a take of the slot in this call. It takes no memory and waits for nobody, and adds nothing to
    /// the history.
    pub fn try_peek(&self, pass: &mut Pass, pid: Pid) -> Peeked
        requires { pass.old.table ≡ self.now }
        ensures table { pass.new.table ≡ pass.old.table }
        ensures answer { Shows pid.slot pid.round pass.old.view result pass.new.view }
    {
        let word = self.take(&mut pass.seat, pid.slot, 1);
        if word == 1 {
            return Peeked::Busy;
        }
        if word != 0 {
            return Peeked::Held;
        }
        let state = self.look(&mut pass.seat, pid);
        Peeked::of(state)
    }

    // Calls the process in the slot that is out, and gives the slot back.
    fn run(&self, seat: &mut Seat<Value, View>, pid: Pid, input: u32) -> Option<Outcome>
        requires table { seat.old.table_id ≡ self.now }
        requires pass { seat.old.me.0.number ≢ 0 }
        requires hand { InHand pid.slot seat.old.me }
        ensures table { seat.new.table_id ≡ seat.old.table_id }
        ensures outcome { result
            ≡ outcome_in pid.round input (replay (seen seat.old.me.0 pid.slot)) }
        ensures gave { seat.new.me
            ≡ (given seat.old.me.0 pid.slot (call_entries seat.old.me.0.number input result), []) }
    {
        let place = place_of(pid.slot);
        let outcome = seat
            .slot_mut(&self.table.shared, place)
            .call(pid.round, input);
        self.give_call::<Brand>(seat, pid, input, outcome);
        outcome
    }

    // The caller's proof picks `E` by this function's arguments alone, so it takes some that its body doesn't use.
    fn give_call<E: Adds>(
        &self,
        seat: &mut Seat<Value, View>,
        pid: Pid,
        input: u32,
        outcome: Option<Outcome>,
    )
        requires table { seat.old.table_id ≡ self.now }
        requires added { E.added ≡ call_entries seat.old.me.0.number input outcome }
        requires adds { Adding (call_entries seat.old.me.0.number input outcome)
            pid.slot seat.old.me }
        ensures table { seat.new.table_id ≡ seat.old.table_id }
        ensures gave { seat.new.me
            ≡ (given seat.old.me.0 pid.slot (call_entries seat.old.me.0.number input outcome), []) }
    {
        self.give::<E>(seat, pid.slot);
    }

    // Looks at the process in the slot that is out, and gives the slot back.
    fn look(&self, seat: &mut Seat<Value, View>, pid: Pid) -> Option<u32>
        requires table { seat.old.table_id ≡ self.now }
        requires pass { seat.old.me.0.number ≢ 0 }
        requires hand { InHand pid.slot seat.old.me }
        ensures table { seat.new.table_id ≡ seat.old.table_id }
        ensures state { result ≡ state_in pid.round (replay (seen seat.old.me.0 pid.slot)) }
        ensures gave { seat.new.me ≡ (given seat.old.me.0 pid.slot [], []) }
    {
        let place = place_of(pid.slot);
        let state = seat.slot_mut(&self.table.shared, place).state(pid.round);
        self.give::<Brand>(seat, pid.slot);
        state
    }
}

impl Tried {
    fn of(outcome: Option<Outcome>) -> Tried
        ensures { result ≡ tried_of outcome }
    {
        match outcome {
            Some(Outcome::Done(reply)) => Tried::Done(reply),
            Some(Outcome::Crashed) => Tried::Crashed,
            Some(Outcome::Ended(reply)) => Tried::Ended(reply),
            None => Tried::Down,
        }
    }
}

impl Peeked {
    fn of(state: Option<u32>) -> Peeked
        ensures { result ≡ peeked_of state }
    {
        match state {
            Some(state) => Peeked::Seen(state),
            None => Peeked::Down,
        }
    }
}
