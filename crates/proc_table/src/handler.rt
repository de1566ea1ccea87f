//! The seat of the handler.
ghost use Rattle.std.specs.Prelude.{◌≡◌, IfOk, replicate, []};
ghost use Rattle.proc_table.specs.Agrees.{slots};
ghost use Rattle.proc_table.specs.Calls.{Made, Joined};
ghost use Rattle.proc_history.specs.Values.{nothing};
ghost use Rattle.proc_table.specs.Seats.{IsHandler};
ghost use Rattle.proc_table.specs.Views.{handler_view};

use crate::{Pass, ProcTable, SLOTS, View};
use atomic_table::{Refused, Seat, Table};
use proc_history::Value;
use std::alloc::{AllocError, Global};
use std::marker::Model;

/// The seat of the handler at a table. Contracts see the table and what the handler knows.
#[derive(Drop)]
pub struct HandlerSeat {
    pub(crate) seat: Seat<Value, View>,
    // For each slot the round of the process that can begin there.
    pub(crate) next: [Option<u32>; SLOTS],
}

impl Model for HandlerSeat {
    ghost use Rattle.std.specs.Prelude.{◌≡◌, []};
    ghost use Rattle.proc_table.specs.Free.{Noted};
    ghost use Rattle.proc_table.specs.Seats.{Sitting, sitting_code, IsHandler};

    ghost Value = { Sitting };

    ghost coded = { sitting_code };

    ghost view = { λ p. record { table = p.seat.table_id; view = p.seat.me.0 } };

    ghost invariant = { λ p. (p.seat.me.1 ≡ []) × IsHandler p.seat.me.0
        × Noted p.next p.seat.me.0 };
}

impl HandlerSeat {
    /// What is so of the handler between its calls: its number is 0, and what it knows of each slot is legal. It does nothing.
    pub fn knows(&self)
        ensures { IsHandler self.now.view }
    {
        let _ = &self.seat;
    }
}

impl ProcTable {
    /// A table in whose slots nothing stands.
    pub fn new(alloc: Global) -> Result<(ProcTable, HandlerSeat), AllocError>
        ensures { IfOk result (λ t. (t.1.table ≡ t.0) × (t.1.view ≡ handler_view slots)) }
    {
        let values = no_values(alloc)?;
        match Table::new(alloc, &[0; SLOTS], values, &()) {
            Ok((table, seat)) => Ok((ProcTable { table }, first_seat(seat))),
            Err(Refused { slots: _ }) => Err(AllocError),
        }
    }

    /// A pass for another client, which has seen as much as the handler.
    pub fn new_pass(&self, seat: &mut HandlerSeat) -> Pass
        requires { seat.old.table ≡ self.now }
        ensures table { seat.new.table ≡ seat.old.table }
        ensures pass_table { result.table ≡ seat.old.table }
        ensures made { Made seat.old.view seat.new.view result.view }
    {
        let mut pass = self.split(&mut seat.seat);
        self.learn(&mut pass);
        Pass { seat: pass }
    }

    /// Ends a pass. The handler has then seen what the pass has.
    pub fn take_back(&self, seat: &mut HandlerSeat, pass: Pass)
        requires table { seat.old.table ≡ self.now }
        requires pass_table { pass.table ≡ self.now }
        ensures table { seat.new.table ≡ seat.old.table }
        ensures joined { Joined seat.old.view pass.view seat.new.view }
    {
        let Pass { seat: other } = pass;
        self.join(&mut seat.seat, other);
        self.learn(&mut seat.seat);
    }

    /// Joins the second pass to the first, which has then seen what either had.
    pub fn meet(&self, first: Pass, second: Pass) -> Pass
        requires table { first.table ≡ self.now }
        requires second_table { second.table ≡ self.now }
        ensures table { result.table ≡ first.table }
        ensures joined { Joined first.view second.view result.view }
    {
        let Pass { mut seat } = first;
        let Pass { seat: other } = second;
        self.join(&mut seat, other);
        self.learn(&mut seat);
        Pass { seat }
    }
}

// The handler's seat of a new table, in each slot of which a process can begin with round 1.
fn first_seat(seat: Seat<Value, View>) -> HandlerSeat
    requires { seat.me ≡ (handler_view slots, []) }
    ensures table { result.table ≡ seat.table_id }
    ensures view { result.view ≡ handler_view slots }
{
    HandlerSeat {
        seat,
        next: [Some(1); SLOTS],
    }
}

// One for each slot.
fn no_values(alloc: Global) -> Result<Vec<Value>, AllocError>
    ensures { IfOk result (λ values. values.items ≡ replicate slots nothing) }
{
    let mut values = Vec::with_capacity(alloc, SLOTS)?;
    for _ in 0..SLOTS {
        values.push_reserved(Value::nothing());
    }
    Ok(values)
}
