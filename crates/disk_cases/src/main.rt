//! The program `disk_cases`: what `rel_disk`, `rel_store`, `start_record` and `rel_handler` make of
//! the cases on its input, a case a line. [`answer`] has the modes.
//!
//! [`disk_callers`] and [`store_callers`] show that a caller of a disk or of a store needs no line
//! about bytes.
#![tactic(auto)]

mod answers;
mod damage;
mod disk_callers;
mod disks;
mod files;
mod nodes;
mod sessions;
mod steps;
mod store_callers;

use crate::answers::answer;
use std::alloc::Global;
use std::io;
use text_cases::answer_cases;

fn main(rt: HostRuntime) -> io::Result<()> {
    answer_cases(&rt, |alloc: Global, mode: &str, text: &[u8]| {
        answer(&rt, alloc, mode, text)
    })
}
