//! How fast processes are called, and relups are made.
//!
//! `benchmarks` measures the calls of processes by clients in threads of their own (`calls`), and the making of relups of many
//! modules (`relups`). The times are written on standard error.
#![tactic(auto)]

mod calls;
mod releases;
mod relups;
mod shape;
mod watch;
mod works;

use crate::calls::measure_calls;
use crate::relups::measure_relups;
use std::process::ExitCode;

fn main(rt: HostRuntime) -> ExitCode {
    if measure_calls(&rt, rt.alloc()).is_some() && measure_relups(&rt).is_ok() {
        ExitCode::SUCCESS
    } else {
        ExitCode::FAILURE
    }
}
