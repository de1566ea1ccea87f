//! The program `program_cases`: what the parts of the programs answer, a case a line. [`answer`] has the modes: what whole
//! sessions of `rel_session` write, what ends them early and what the next session finds, the listings of `erl_consult`, and
//! what `rel_host` makes of arguments, of paths, and of files in the folder in which the program runs.
#![tactic(auto)]

mod answers;
mod disks;
mod failing_readers;
mod faults;
mod folders;
mod given;
mod host;
mod listings;
mod narrow_writers;
mod options;
mod sessions;
mod streams;
mod watched;

use crate::answers::answer;
use std::alloc::Global;
use std::io;
use text_cases::answer_cases;

fn main(rt: HostRuntime) -> io::Result<()> {
    answer_cases(&rt, |alloc: Global, mode: &str, text: &[u8]| {
        answer(&rt, &rt, alloc, mode, text)
    })
}
