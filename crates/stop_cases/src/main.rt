//! The program `stop_cases`: sessions whose disk stops or fails at each of its calls in turn, a case a line. [`answer`] has the
//! modes. What a boot finds then has to be what the session had acknowledged, or that and the command in which it was cut off,
//! of which an installation with a restart may lack its boot.
//!
//! Beside them stand the calls of the libraries that sessions make, each made again where memory is refused to it.
#![tactic(auto)]

mod answers;
mod calls;
mod commands;
mod expected;
mod faults;
mod lines;
mod release_table;
mod running;
mod runs;
mod stops;

use crate::answers::answer;
use std::alloc::Global;
use std::io;
use text_cases::answer_cases;

fn main(rt: HostRuntime) -> io::Result<()> {
    answer_cases(&rt, |alloc: Global, mode: &str, text: &[u8]| {
        answer(&rt, alloc, mode, text)
    })
}
