//! The table, and the seat of the handler at it.
ghost use Rattle.std.specs.Prelude.{◌≡◌, ◌++◌, List, true};
ghost use Rattle.proc_history.specs.Events.{ByHandler, HistoryEntry};
ghost use Rattle.proc_history.specs.Histories.{IsLegal, replay};
ghost use Rattle.proc_history.specs.Releases.{BeginsLast, entries_of};
ghost use Rattle.proc_table.specs.Free.{BeganLowest, free_count};
ghost use Rattle.proc_table.specs.Holds.{Released};
ghost use Rattle.proc_table.specs.Seats.{IsHandler};
ghost use Rattle.proc_table.specs.Views.{is_out, seen};
ghost use Rattle.proc_table.specs.Waits.{HeldAtLast};

use crate::Seating;
use proc_table::{Beginning, Entry, HandlerSeat, Held, Pid, ProcTable};
use std::marker::{Model, PhantomData};
use std::sync::Wait;

/// A table and a seat of the handler, as they are lent for an access.
#[derive(Drop)]
pub struct Lent<'t> {
    /// The table.
    pub table: &'t ProcTable,
    /// The seat, which sits at it.
    pub seat: &'t mut HandlerSeat,
}

/// The table, and the seat of the handler at it. Contracts see what the handler knows.
#[derive(Drop)]
pub struct TableAccess<'t, S: Seating> {
    table: &'t ProcTable,
    seat: &'t mut HandlerSeat,
    of: PhantomData<S>,
}

impl<'t, S: Seating> Model for TableAccess<'t, S> {
    ghost use Rattle.std.specs.Prelude.{◌≡◌};
    ghost use Rattle.proc_table.specs.declared.view.View.{View};
    ghost use Rattle.proc_table.specs.Seats.{view_code};

    ghost Value = { View };

    ghost coded = { view_code };

    ghost view = { λ a. a.seat.now.view };

    ghost invariant = { λ a. (a.seat.ghost_name ≡ S.name) × (a.seat.now.table ≡ S.table)
        × (a.table.now ≡ S.table) };
}

impl<'t, S: Seating> TableAccess<'t, S> {
    /// The access by this seat to its table.
    pub fn new(lent: Lent<'t>) -> TableAccess<'t, S>
        requires name { lent.seat.ghost_name ≡ S.name }
        requires table { (lent.seat.now.table ≡ S.table) × (lent.table.now ≡ S.table) }
        ensures { result ≡ lent.entry.seat.now.view }
    {
        let Lent { table, seat } = lent;
        TableAccess {
            table,
            seat,
            of: PhantomData,
        }
    }

    /// The seat, once the access is over.
    pub fn into_seat(self) -> &'t mut HandlerSeat
        ensures name { result.ghost_name ≡ S.name }
        ensures table { result.now.table ≡ S.table }
        ensures view { result.now.view ≡ self.entry }
    {
        let TableAccess {
            table: _,
            seat,
            of: _,
        } = self;
        seat
    }

    /// What is so of the handler between its calls: its number is 0, and what it knows of each slot is legal. It does nothing.
    pub fn knows(&self)
        ensures known { IsHandler self.now }
    {
        self.seat.knows();
    }

    /// In how many slots a process can begin. It takes no memory and waits for nobody.
    pub fn free_count(&self) -> usize
        ensures { result ≡ free_count self.now }
    {
        self.seat.free_count()
    }

    /// A process begins in the lowest slot in which one can, once no client has the slot. Where there is none, nothing changes.
    pub fn begin_lowest<R: Wait>(&mut self, rt: &R, begins: Beginning) -> Result<Pid, Beginning>
        ensures began { BeganLowest begins self.old result self.new }
    {
        self.table.begin_lowest(rt, self.seat, begins)
    }

    /// Holds the slot of the process, whatever its round, once nobody else has it.
    pub fn hold<R: Wait>(&mut self, rt: &R, pid: Pid) -> Held
        ensures held { HeldAtLast pid.slot self.old result self.new }
    {
        self.table.hold(rt, self.seat, pid)
    }

    /// Gives the slot back. Its entries are known to the proof alone. It takes no memory and waits for nobody.
    pub fn let_go(&mut self, held: Held)
        ghost entries: { List HistoryEntry }
        requires out { is_out self.old held.slot ≡ true }
        requires by { ByHandler entries }
        requires legal { IsLegal (seen self.old held.slot ++ entries) }
        requires value { held.value ≡ replay (seen self.old held.slot ++ entries) }
        ensures released { Released held.slot entries self.old self.new }
    {
        self.table.let_go(self.seat, held);
    }

    /// Gives the slot back, with these entries as one. It takes no memory and waits for nobody.
    pub fn release(&mut self, held: Held, entries: &[Entry<'_>])
        requires out { is_out self.old held.slot ≡ true }
        requires begins { BeginsLast held.value entries.now }
        requires legal { IsLegal (seen self.old held.slot ++ entries_of held.value entries.now) }
        requires value { held.value
            ≡ replay (seen self.old held.slot ++ entries_of held.value entries.now) }
        ensures released { Released held.slot (entries_of held.value entries.entry.now)
            self.old self.new }
    {
        self.table.release(self.seat, held, entries);
    }
}
