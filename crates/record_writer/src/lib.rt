//! The bodies of records: what a command appends to a store.
//!
//! [`made_body`], [`unpacked_body`] and [`change_body`] print the record of an event (`body`; `record_of` of `rel_records`), which
//! is read back (`spells`). After the list it makes of this what the event makes of it: `reports` of [`change_body`] says so, of
//! the others the law `records_determine_events` of `rel_records`. One that brings a release carries the libraries that are new to
//! the list alone (`new_libraries`). [`boot_body_behind_restart`] prints what the boot after a restart
//! will write, for which there has to be room before. [`image_body`] prints the image of a list that records make
//! (`image_of`): alone it makes that list again (`makes`). There is none where a term of it lies too deep to be read back.
//!
//! Only tested: that memory is there. Trusted: the toolchain alone.
#![tactic(auto)]

mod depth;
mod image;
mod release_term;
mod writing;

pub use image::image_body;
pub use writing::{boot_body_behind_restart, change_body, made_body, unpacked_body};
