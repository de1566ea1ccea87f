//! The program `consult`: the terms of the text on standard input, one a line, as `erl_consult` lists them.
//!
//! A text that isn't listed is reported on standard error, by the text of its error, and by the exit status.
#![tactic(auto)]

use counted_io::{CountedReader, CountedWriter};
use erl_consult::consult;
use std::io;
use std::process::ExitCode;

fn main(rt: HostRuntime) -> ExitCode {
    let mut reader = CountedReader::new(rt.reader());
    let mut writer = CountedWriter::new(io::writer(&rt));
    let Err(error) = consult(rt.alloc(), &mut reader, &mut writer) else {
        return ExitCode::SUCCESS;
    };
    let _ = eprintln!(rt; "{error}");
    ExitCode::from(error.exit_status())
}
