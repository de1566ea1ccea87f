//! The listings of a node, as lines of terms: its releases, its processes, and its modules.
//!
//! [`listing`] reports the releases of a list, [`push_process`] and [`push_module`] add one line each to a listing, and
//! [`push_count`] its last line, which reports how many there are (specs/Listing). Each function answers exactly its text, or
//! that no memory was left.
//!
//! Only tested: that a listing is made where memory is there. Trusted: the toolchain alone.
#![tactic(auto)]

mod line;
mod process_line;
mod release_listing;

pub use line::push_count;
pub use process_line::{push_module, push_process};
pub use release_listing::listing;
