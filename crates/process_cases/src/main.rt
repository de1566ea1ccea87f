//! The program `process_cases`: what becomes of the processes in the cases on its input, a case a line. [`answer`] has the modes:
//! what clients see of the processes of `proc_table` that others call and hold, in one thread and in threads of their own, what
//! these answer to the handler, applications that `sup_tree` starts and stops, and workers of `proc_workers`.
#![tactic(auto)]

mod answers;
mod children;
mod clients;
mod gates;
mod loads;
mod own_calls;
mod processes;
mod steps;
mod threads;
mod trees;
mod workers;

use crate::answers::answer;
use std::alloc::Global;
use std::io;
use text_cases::answer_cases;

fn main(rt: HostRuntime) -> io::Result<()> {
    answer_cases(&rt, |alloc: Global, mode: &str, text: &[u8]| {
        answer(&rt, alloc, mode, text)
    })
}
