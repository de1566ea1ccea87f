//! The access of the handler to the table of processes: the table, and the handler's seat at it, as one value that is borrowed.
//!
//! A [`TableAccess`] is seen as what the handler knows. Its seat sits at its table: that is its invariant, and no clause of a
//! function that is given one repeats it. Its type names the [`Seating`], the seat and the table, so who lent the seat knows
//! which one comes back ([`TableAccess::into_seat`]). Its calls are those of `proc_table`, with their clauses.
//!
//! A function that is given a table and a seat makes a [`Lent`] of them and hands it to one that is generic in the seating, takes
//! the access by [`TableAccess::new`], and answers the seat.
//!
//! Trusted: the toolchain alone.
#![tactic(auto)]

mod access;
mod seating;

pub use access::{Lent, TableAccess};
pub use seating::Seating;
