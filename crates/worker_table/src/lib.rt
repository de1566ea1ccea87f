//! Tables of workers, which stand for their code: what a worker does at a call and at a change of code.
//!
//! [`Worker::step`] and [`Worker::change`] are those of the first row that fits (specs/Decide), and take no memory. A step
//! finds its row in two sorted indexes (specs/Indexed): [`Worker::step_counted`] compares 26 keys at most where there are 4,096
//! rows or fewer (`cost`), never more than 128 (`bound`), and one at least in each index that has a key (`least`).
//! An [`Index`] keeps each key once, in order, with the number of the first row that has it (specs/Keys), and [`Index::find`]
//! seeks it by halves (`found`, `cost`). A comparison with a stored [`Key`] counts once, in [`Ticks`]: a key shows its numbers to
//! no other module, and nothing else compares them. Counters and keys have a brand, and only counters of the brand [`Counted`]
//! can be made. So code over any brand can't compare keys but where the counter that it was given counts it.
//! [`Worker::read`] takes a table from what follows the first word of its term, exactly where that has the shape of one
//! (specs/Headed, specs/Rows); whether its versions are versions [`Worker::has_versions`] reports. Contracts see a `Worker` as
//! its table alone (specs/Table). `parts` has what the terms of all tables begin with. [`is_same`] says whether two terms are
//! equal; the function of `laws` says that two are taken as the same exactly where they are.
//!
//! Only tested: that a table or an index is made, and copied, where memory is there. Trusted: the toolchain alone.
#![tactic(auto)]

mod index;
mod key;
mod keyed;
mod keyed_row;
pub mod laws;
mod old;
pub mod parts;
mod row;
mod row_reader;
mod rows;
mod same;
mod step;
mod worker;

pub use index::Index;
pub use key::{Counted, Key, Ticks};
pub use old::Old;
pub use same::is_same;
pub use step::Step;
pub use worker::Worker;
