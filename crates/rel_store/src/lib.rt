//! A record store on a disk that may crash.
//!
//! A store holds records, each a list of bytes, and a start slot, which is a text of at most 127 bytes. Once a call has answered
//! `Ok`, every crash leaves what it made. A crash within an `append` leaves the records from before it, with the new one or
//! without; one within a `write_slot` leaves the old text or the new; one within a `compact`, which replaces all records by one,
//! leaves the old records or that one alone. So an opening of whatever a crash may leave finds one of these, undamaged.
//! `records_of` says which records the bytes of a disk hold, or why they are refused. The clauses speak of it, and of what a crash
//! may leave at each moment of a call (`LeavesOnly`). A caller composes them and says nothing of bytes.
//! A call that answers `Device` leaves the store to be opened again: from then on each call that answers a `Result` answers
//! `MustReopen`. `into_disk` gives the disk back, and so does each refusal of a call that takes one.
//! Only tested: that a call succeeds where memory is there, and that an append gives back what was reserved. Trusted: the
//! toolchain and `thiserror`.
#![tactic(auto)]

mod bytes;
mod compaction;
mod contents;
mod creation;
mod device;
mod error;
mod laws;
mod layout;
mod opening;
mod store;

pub use creation::holds_a_store;
pub use error::StoreError;
pub use laws::{nothing_else_is_read, what_is_spelled_is_read};
pub use layout::{MAX_BODY, MAX_END, RECORD_HEAD};
pub use store::Store;
