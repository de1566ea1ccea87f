//! The lines that a node answers, of which a session writes one for each command.
//!
//! [`append_version`] reports the version that a command names, in a text that was made before, as [`blank_line`] makes it;
//! [`start_line`] reports what a node starts, [`found_line`] a script that is found
//! for an installation, and [`installed_line`] a release that was installed (specs/Lines). [`refusal_line`] reports why a command
//! is refused: the refusal's number, its name and its detail. [`refused_line`] and [`broken_line`] are of a script that isn't
//! carried out to its end, before and after its point of no return (specs/Refusals). Each answers exactly its text, or that no
//! memory was left. The listings are those of `node_listing`.
//!
//! Only tested: that a line is made where memory is there. Trusted: the toolchain alone.
#![tactic(auto)]

mod refusal;
mod script;
mod version;

pub use refusal::refusal_line;
pub use script::{broken_line, found_line, installed_line, refused_line};
pub use version::{MOST_LINE, append_version, blank_line, start_line};
