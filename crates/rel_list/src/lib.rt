//! The list of a node's releases, each with its status, its libraries and its relup, in memory (OTP: release_handler(3)).
//!
//! A [`ReleaseList`] is changed by events: a release is made, unpacked, installed, installed with a restart, made permanent,
//! removed or rebooted, or the node boots. Beside them stands `assign`, by which records are read back: it gives a listed release
//! a status, never `current`, and `one_shot` only where no other release is current or a one-shot (`may`, `assigned`). The laws
//! on events don't speak of it, and who assigns asks that one release is permanent. `accept` is `Ok` exactly where `step` is defined on the event and the list, out of
//! memory aside; then the list is what `step` makes of it (clause `accepted`). After a refusal the list is unchanged
//! (`unchanged`), and the refusal is the first condition that the event fails, in the order of docs/RULES.md (`refused`). Only an
//! event that brings a release takes memory. What is asked of the list is answered from its entries, in order of coming;
//! `boot_events` gives all that a boot would change.
//! The functions of `laws` say of these definitions alone that versions are distinct, that one release is permanent and at most
//! one is current or a one-shot, that a boot undoes nothing but installations and leaves no one-shot, and that events lead from a
//! list as records report it to each other one of the same releases.
//! Only tested: that an event is accepted where memory is there, and the texts of the refusals. Trusted: the toolchain,
//! `thiserror`, and `indexmap` with its contract. That a look-up by version is no scan is to be read in the code.
#![tactic(auto)]

mod bundle;
mod change;
mod event;
mod fault;
pub mod laws;
mod libraries;
mod list;
mod listed;
mod refusal;
mod status;

pub use bundle::Bundle;
pub use event::Event;
pub use fault::ListError;
pub use library::Library;
pub use list::ReleaseList;
pub use listed::ListedRelease;
pub use status::Status;
