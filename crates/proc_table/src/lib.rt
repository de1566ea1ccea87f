//! The processes of a node, which clients call and the handler changes.
//!
//! A [`ProcTable`] has [`SLOTS`] slots. A client sits at it with a [`Pass`], the handler with its [`HandlerSeat`]. Each
//! slot has one history, which exists in the proofs alone; what stands in the slot is what the history leaves
//! (specs/Events, specs/Values and specs/Histories of `proc_history`).
//! [`ProcTable::try_call`] adds one call to the history, or says that no process of that round is up, or who has it
//! (specs/Calls). Each answer goes by a take of the slot in that very call, which the client's view notes with the word
//! that it found. [`ProcTable::try_hold`] gives the handler the process (specs/Holds), and [`ProcTable::release`] adds
//! the handler's entries at once (specs/Releases of `proc_history`). They are given no memory and no lock.
//! [`ProcTable::call`], [`ProcTable::hold`], [`ProcTable::begin`] and [`ProcTable::give_up`] wait for the slot, and say
//! the same if they return (specs/Waits, specs/Begins).
//! [`HandlerSeat::lowest_free`] reports where a process can begin, and [`ProcTable::begin_lowest`] begins one there
//! (specs/Free). While the handler has lent no pass, nobody else adds to a history, and [`ProcTable::call_alone`] says
//! all of its call (specs/Alone). Words, values and what each seat knows agree at any time (specs/Agrees). The table
//! keeps that a run of the kinds of step leads to what it is in the order of its slots (specs/Moves); the functions of
//! `laws` say that every run keeps agreement. Each slot lies at a place of its own, neighbouring slots far apart
//! (specs/Places), so that clients of neighbouring processes share no line of the cache.
//!
//! Only tested: that a call is answered where nobody has the process. Trusted: the toolchain alone, `atomic_table` with
//! it.
#![tactic(auto)]

mod alone;
mod begins;
mod calls;
mod free;
mod handler;
mod held;
pub mod laws;
mod pass;
mod pid;
mod place;
mod rule;
mod table;
mod view;
mod waits;

/// How many slots a table has.
pub const SLOTS: usize = 256;

pub use handler::HandlerSeat;
pub use held::Held;
pub use pass::{Pass, Peeked, Tried};
pub use pid::Pid;
pub use proc_history::{Beginning, Entry, Name, Now, Standing, Value};
pub use rule::Agreement;
pub use table::ProcTable;
pub use view::View;
