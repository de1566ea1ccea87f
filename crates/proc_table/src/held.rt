//! A process that the handler holds.
ghost use Rattle.std.specs.Prelude.{◌≡◌, ◌<◌, ◌↔◌, IsTrue, true, false, List, [], ◌++◌, MatchOption};
ghost use Rattle.erl_term.specs.Value.{value_of};
ghost use Rattle.proc_history.specs.InMemory.{old_of};
ghost use Rattle.proc_table.specs.Agrees.{slots};
ghost use Rattle.proc_history.specs.Events.{ByHandler, HistoryEntry};
ghost use Rattle.proc_history.specs.Events.Event.{changed, loaded, stopped, started, given_up};
ghost use Rattle.proc_history.specs.Histories.{replay, IsLegal};
ghost use Rattle.proc_history.specs.Changes.{Begins};
ghost use Rattle.proc_table.specs.Holds.{HeldNow, NotHeld, Released};
ghost use Rattle.proc_history.specs.Releases.{BeginsLast, entries_of};
ghost use Rattle.proc_table.specs.Seats.{IsHandler};
ghost use Rattle.proc_table.specs.Steps.{InHand, given, with_laid};
ghost use Rattle.proc_history.specs.Values.{after, MayCome};
ghost use Rattle.proc_table.specs.Views.{seen, is_out};

use crate::free::note;
use crate::place::place_of;
use crate::rule::Adds;
use crate::{HandlerSeat, Pid, ProcTable, View};
use atomic_table::Seat;
use erl_term::Term;
use proc_history::{Beginning, Entry, Old, Value, Worker};
use std::marker::{Brand, Model};

/// A slot that the handler holds, with what stands in it. It ends in `release` or `let_go`.
pub struct Held {
    slot: usize,
    value: Value,
}

impl Model for Held {
    ghost use Rattle.std.specs.Prelude.{◌<◌};
    ghost use Rattle.proc_history.specs.contracts.value.Value as stored;
    ghost use Rattle.proc_table.specs.Agrees.{slots};
    ghost use Rattle.proc_table.specs.Holds.{Holding, holding_code};

    ghost Value = { Holding };

    ghost coded = { holding_code stored.the_row.coded };

    ghost view = { λ h. record { slot = h.slot; value = h.value } };

    ghost invariant = { λ h. h.slot < slots };
}

impl Held {
    /// What stands in the slot, as the history leaves it.
    pub fn value(&self) -> &Value
        ensures { result.now ≡ self.now.value }
    {
        &self.value
    }

    /// Another value in its place.
    pub fn set(&mut self, value: Value)
        ensures { self.new ≡ record { slot = self.old.slot; value = value } }
    {
        self.value = value;
    }

    /// Another value in its place, and the one that stood there.
    pub fn replace(&mut self, value: Value) -> Value
        ensures held { self.new ≡ record { slot = self.old.slot; value = value } }
        ensures old { result ≡ self.old.value }
    {
        std::mem::replace(&mut self.value, value)
    }

    /// A process begins, with the next round. It doesn't, and nothing changes, where one stands, or where the last round was
    /// used.
    pub fn begin(&mut self, begins: Beginning) -> Result<u32, Beginning>
        ensures slot { self.new.slot ≡ self.old.slot }
        ensures value { Begins self.old.value begins result self.new.value }
    {
        self.value.begin(begins)
    }

    /// The process has this table from now on. Nothing changes where none stands.
    pub fn load(&mut self, table: Worker)
        ensures { self.new
            ≡ record { slot = self.old.slot; value = after self.old.value (loaded table) } }
    {
        self.value.load(table);
    }

    /// A change of code from this version, with this extra term. It is false, and nothing changes, where the process is
    /// up and its table has no row for it. It takes no memory.
    pub fn change(&mut self, old: &Old, extra: &Term) -> bool
        ensures found { IsTrue result
            ↔ MayCome self.old.value (changed (old_of old.now) (value_of extra.now)) }
        ensures value { self.new ≡ record {
          slot = self.old.slot;
          value = after self.old.value (changed (old_of old.now) (value_of extra.now));
        } }
    {
        self.value.change(old, extra)
    }

    /// A process that is up is stopped.
    pub fn stop(&mut self)
        ensures { self.new ≡ record { slot = self.old.slot; value = after self.old.value stopped } }
    {
        self.value.stop();
    }

    /// A process that was stopped is up, in its table's first state.
    pub fn start(&mut self)
        ensures { self.new ≡ record { slot = self.old.slot; value = after self.old.value started } }
    {
        self.value.start();
    }

    /// Nothing stands in the slot any more.
    pub fn give_up(&mut self)
        ensures { self.new
            ≡ record { slot = self.old.slot; value = after self.old.value given_up } }
    {
        self.value.give_up();
    }
}

impl ProcTable {
    /// Holds the slot of the process, whatever its round, unless a client or the handler has it. It takes no memory and
    /// waits for nobody.
    pub fn try_hold(&self, seat: &mut HandlerSeat, pid: Pid) -> Option<Held>
        requires { seat.old.table ≡ self.now }
        ensures table { seat.new.table ≡ seat.old.table }
        ensures held { MatchOption result (NotHeld pid.slot seat.old.view seat.new.view)
            (λ held. HeldNow pid.slot seat.old.view held seat.new.view) }
    {
        let found = self.take(&mut seat.seat, pid.slot, 2);
        if found != 0 {
            return None;
        }
        let value = self.pick_up(&mut seat.seat, pid);
        note(&mut seat.next, pid.slot, None);
        Some(Held {
            slot: pid.slot,
            value,
        })
    }

    /// Gives the slot back. Its entries are known to the proof alone. It takes no memory and waits for nobody.
    pub fn let_go(&self, seat: &mut HandlerSeat, held: Held)
        ghost entries: { List HistoryEntry }
        requires table { seat.old.table ≡ self.now }
        requires out { is_out seat.old.view held.slot ≡ true }
        requires by { ByHandler entries }
        requires legal { IsLegal (seen seat.old.view held.slot ++ entries) }
        requires value { held.value ≡ replay (seen seat.old.view held.slot ++ entries) }
        ensures table { seat.new.table ≡ seat.old.table }
        ensures released { Released held.slot entries seat.old.view seat.new.view }
    {
        let Held { slot, value } = held;
        note(&mut seat.next, slot, value.next_round());
        self.put_down::<Brand>(&mut seat.seat, slot, value);
    }

    /// Gives the slot back, with these entries as one. It takes no memory and waits for nobody.
    pub fn release(&self, seat: &mut HandlerSeat, held: Held, entries: &[Entry<'_>])
        requires table { seat.old.table ≡ self.now }
        requires out { is_out seat.old.view held.slot ≡ true }
        requires begins { BeginsLast held.value entries.now }
        requires legal { IsLegal
            (seen seat.old.view held.slot ++ entries_of held.value entries.now) }
        requires value { held.value
            ≡ replay (seen seat.old.view held.slot ++ entries_of held.value entries.now) }
        ensures table { seat.new.table ≡ seat.old.table }
        ensures released { Released held.slot (entries_of held.value entries.entry.now)
            seat.old.view seat.new.view }
    {
        let Held { slot, value } = held;
        note(&mut seat.next, slot, value.next_round());
        self.put_down_with::<Brand>(&mut seat.seat, slot, value, entries);
    }

    // The caller's proof picks `E` by this function's arguments alone, so it takes some that its body doesn't use.
    fn put_down_with<E: Adds>(
        &self,
        seat: &mut Seat<Value, View>,
        slot: usize,
        value: Value,
        entries: &[Entry<'_>],
    )
        requires table { seat.old.table_id ≡ self.now }
        requires inside { slot < slots }
        requires handler { IsHandler seat.old.me.0 }
        requires empty { seat.old.me.1 ≡ [] }
        requires out { is_out seat.old.me.0 slot ≡ true }
        requires added { E.added ≡ entries_of value entries.now }
        requires legal { IsLegal (seen seat.old.me.0 slot ++ entries_of value entries.now) }
        requires value { value ≡ replay (seen seat.old.me.0 slot ++ entries_of value entries.now) }
        ensures table { seat.new.table_id ≡ seat.old.table_id }
        ensures gave { seat.new.me ≡ (
          given (with_laid seat.old.me.0 slot false) slot
              (entries_of value entries.entry.now),
          [],
        ) }
    {
        self.put_down::<E>(seat, slot, value);
    }

    // Gives the slot back with this value, in place of the empty one that was laid there.
    fn put_down<E: Adds>(&self, seat: &mut Seat<Value, View>, slot: usize, value: Value)
        requires table { seat.old.table_id ≡ self.now }
        requires inside { slot < slots }
        requires handler { IsHandler seat.old.me.0 }
        requires empty { seat.old.me.1 ≡ [] }
        requires out { is_out seat.old.me.0 slot ≡ true }
        requires by { ByHandler E.added }
        requires legal { IsLegal (seen seat.old.me.0 slot ++ E.added) }
        requires value { value ≡ replay (seen seat.old.me.0 slot ++ E.added) }
        ensures table { seat.new.table_id ≡ seat.old.table_id }
        ensures gave { seat.new.me ≡ (given (with_laid seat.old.me.0 slot false) slot E.added, []) }
    {
        self.lift(seat, slot);
        let _laid = self.table.shared.exchange(seat, place_of(slot), value);
        self.give::<E>(seat, slot);
    }

    // The value of the slot that is out, in whose place an empty one is laid.
    fn pick_up(&self, seat: &mut Seat<Value, View>, pid: Pid) -> Value
        requires table { seat.old.table_id ≡ self.now }
        requires handler { seat.old.me.0.number ≡ 0 }
        requires hand { InHand pid.slot seat.old.me }
        ensures table { seat.new.table_id ≡ seat.old.table_id }
        ensures value { result ≡ replay (seen seat.old.me.0 pid.slot) }
        ensures laid { seat.new.me ≡ (with_laid seat.old.me.0 pid.slot true, []) }
    {
        let place = place_of(pid.slot);
        let value = self.table.shared.exchange(seat, place, Value::nothing());
        self.lay(seat, pid.slot);
        value
    }
}
