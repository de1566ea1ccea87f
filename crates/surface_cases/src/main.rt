//! The program `surface_cases`: what the calls answer with which a program works on releases, from disks and terms to nodes and
//! sessions, a case a line. [`answer`] has the modes.
#![tactic(auto)]

mod answers;
mod appups;
mod disks;
mod files;
mod handlers;
mod lists;
mod processes;
mod relups;
mod scripts;
mod sessions;
mod stores;
mod tables;
mod terms;
mod trees;
mod workers;

use crate::answers::answer;
use std::alloc::Global;
use std::io;
use text_cases::answer_cases;

fn main(rt: HostRuntime) -> io::Result<()> {
    answer_cases(&rt, |alloc: Global, mode: &str, text: &[u8]| {
        answer(&rt, alloc, mode, text)
    })
}
