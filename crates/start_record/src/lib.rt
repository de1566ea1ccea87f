//! The start record of a node: which runtime system and which release it starts.
//!
//! The record stands in the start slot of a store as a text: the version of the runtime system, a space, the version of the
//! release and a new line (`start_text`). A slot spells one start at most (`SpellsStart`, `no_slot_spells_two_starts`), and
//! what is written is read back (`a_start_is_read_back`).
//!
//! Of two versions, `write_start` leaves the old start or the new, whenever it is stopped, and after `Ok` the new one (`either`,
//! `spelled`). Of other texts its clauses say which bytes the slot has, and no more.
//! `read_start` gives the start that the slot spells, and `BadStart` exactly where it spells none (`read`, `refused`). The
//! records stay, and so do all bytes but those of the slot that is written (`any_moment`, `bytes`, `others`). Each refusal
//! comes exactly where its clause says (`long`, `reopened`, `refused`).
//!
//! Only tested: that memory is there for a start that is read. Trusted, beside what the store trusts: `arrayvec`.
#![tactic(auto)]

mod error;
mod laws;
mod start;
mod text;

pub use error::StartError;
pub use laws::{a_start_is_read_back, no_slot_spells_two_starts};
pub use start::{Start, read_start, write_start};
