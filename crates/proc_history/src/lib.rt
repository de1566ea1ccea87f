//! The history of a process, and what it leaves.
//!
//! What happens to a process is an `Event` (specs/Events): it begins, is called, gets another table, is changed, stopped,
//! started, given up. A history is a list of them, each with who did it; it exists in the proofs alone. [`Value`] is what a
//! history leaves (specs/Values, specs/Histories). Each function that changes one makes of it what the event of its name does.
//! They take no memory, [`Value::copy`] alone does.
//!
//! For callers: an event that may come keeps a history legal (`event_adds` of proofs/Beginnings), and so do two lists after
//! each other (`legal-append`, `replay-append`, `own-append` of proofs/Entries).
//!
//! Trusted: the toolchain alone.
#![tactic(auto)]

mod beginning;
mod changes;
mod entry;
mod name;
mod value;

pub use beginning::Beginning;
pub use entry::Entry;
pub use mod_table::{Old, Worker};
pub use name::Name;
pub use value::{Now, Outcome, Standing, Value};
