//! The program `script_cases`: what becomes of scripts, and of processes that a script holds, a case a line. [`answer`] says what
//! the modes are of scripts, and [`held::push_way`] what they are of single operations.
#![tactic(auto)]

mod apps;
mod beside;
mod cases;
mod held;
mod node;
mod starts;
mod ways;

use crate::cases::answer;
use std::alloc::Global;
use std::io;
use text_cases::answer_cases;

fn main(rt: HostRuntime) -> io::Result<()> {
    answer_cases(&rt, |alloc: Global, mode: &str, text: &[u8]| {
        answer(&rt, alloc, mode, text)
    })
}
