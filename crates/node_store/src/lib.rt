//! The releases of a node in a store on its disk, and how an event is committed there.
//!
//! A `NodeStore` is a list of releases and the store that has the records of its events. A commit has the list take an event,
//! appends its record, writes the start record where another release is permanent then, and compacts a store of 64 records or
//! more. The node is dead while it does so, and again after a device that failed: nothing can be asked of it until the next boot.
//! Stopped at any moment of a commit, the disk stands for the list of a prefix of the accepted events that holds every
//! acknowledged one, compacted or not, and has a start record of its events (`Commits`: `any_moment`, `IsCrashImageOf`). After
//! an `Ok` it stands for the list with the event. A refusal changes nothing, but after `Device` the node is dead. One relation
//! says all that a call or a command answers and leaves (`AppendsEvent`, `CommitsEvent`: specs/Commands).
//! How far the store reaches is a function of its reach before, of the record and of the list (`compacted`), or it reaches as far
//! as after the record alone, where memory was refused to the compaction (`MayReach`). A list with a one-shot is never compacted
//! (`may_be_compacted`): its store has room for the record of the next boot (`HasBootSpace`), and is of format 2 (`format`).
//! What commands ask before they commit, and the boot, are `rel_handler`'s. Clauses see bytes as an image (`IsImageOf`) alone.
//! Only tested: that a commit succeeds where memory is there. Trusted: the toolchain, with what the crates below trust.
#![tactic(auto)]

mod commit;
mod compaction;
mod format;
mod installation;
mod node_store;
mod start;

pub use commit::make_room;
pub use node_store::NodeStore;
pub use start::start_of;
