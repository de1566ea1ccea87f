//! What the bytes of a store's file hold, as a text.
//!
//! [`report_of`] reads the bytes with the functions of a boot, and answers a text of which each line is said of the bytes
//! (`IsReportOf`): the layout, the start, each record with its place, the room that is left, and the releases that the records
//! make, each with its status; or why an opening refuses the bytes, or which record is bad, and where (specs/Report). Of a damaged
//! store the text has what stands before the damage, as a store of that alone holds it. The bytes are read and never written.
//!
//! Only tested: that a report is made where memory is there. Trusted: the toolchain.
#![tactic(auto)]

mod contents;
mod layout;
mod lines;
mod releases;
mod report;

pub use report::{MOST_BYTES, Report, report_of};
