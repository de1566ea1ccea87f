//! The seat of a client.
use crate::View;
use atomic_table::Seat;
use proc_history::Value;
use std::marker::Model;

/// What a call answers.
#[derive(Clone, Copy)]
pub enum Tried {
    /// The reply.
    Done(u32),
    /// The process ended abnormally, without a reply.
    Crashed,
    /// The last reply of a process that ended normally.
    Ended(u32),
    /// Another client has the process.
    Busy,
    /// The handler has the process.
    Held,
    /// The process isn't up, or its round is over.
    Down,
}

/// What a peek answers.
#[derive(Clone, Copy)]
pub enum Peeked {
    /// The state.
    Seen(u32),
    /// Another client has the process.
    Busy,
    /// The handler has the process.
    Held,
    /// The process isn't up, or its round is over.
    Down,
}

/// The seat of one client at a table. Contracts see the table and what the client knows.
#[derive(Drop)]
pub struct Pass {
    pub(crate) seat: Seat<Value, View>,
}

impl Model for Pass {
    ghost use Rattle.std.specs.Prelude.{◌≡◌, []};
    ghost use Rattle.proc_table.specs.Seats.{Sitting, sitting_code, IsPass};

    ghost Value = { Sitting };

    ghost coded = { sitting_code };

    ghost view = { λ p. record { table = p.seat.table_id; view = p.seat.me.0 } };

    ghost invariant = { λ p. (p.seat.me.1 ≡ []) × IsPass p.seat.me.0 };
}
