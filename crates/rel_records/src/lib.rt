//! What the records say in which a store keeps the list of a node's releases.
//!
//! A record says that the node's first release was made, that a further one came in, that releases got other statuses, or that one
//! left (specs/Record). One that brings a release carries its new libraries alone, those that the list doesn't have, and its
//! relup. Its body is a printed term (`body_of`); a body spells one record at most (`Spells`, `a_body_spells_one_record`). An image
//! says a whole list in one record, which stands first.
//! `read_list` gives the list that records make, each taken as what it says of the list (`Makes`), or the first record that the
//! list so far can't take (`IsBadRecord`). Only a store of format 2 has records that write the status `one_shot`, and none has
//! such an image (`allows`, specs/Format). Which record is that of an event (`record_of`, specs/Writing), and which the image of a list (`image_of`,
//! specs/Image), is said here; `record_writer` prints them.
//! The laws: bodies make one list or one of them is bad, and never both. The record of an event makes of a list what the event
//! makes of it, each as records report it, where the event keeps the limits of a node (`records_determine_events`): so records say
//! nothing of what is current. And a record of a release that comes in or leaves stands only where it is that of an event; so does
//! one of statuses, unless it is empty or names a release twice (`records_are_of_events`).
//! Only tested: that memory is there. Trusted: the toolchain and `thiserror`.
#![tactic(auto)]

mod assignment;
mod bundle;
mod fault;
mod format;
mod imaged;
pub mod laws;
mod lists;
mod new_release;
mod reading;
mod releases;
mod restoration;
mod status_changes;
mod statuses;
mod words;

pub use fault::RecordsError;
pub use lists::read_list;
pub use releases::MOST_RELEASES;
pub use words::{IMAGE, MADE, UNPACKED};
