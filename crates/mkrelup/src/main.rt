//! The program `mkrelup`: the relup of a release, as a file.
//!
//! `mkrelup [--root DIR] [--up REL].. [--down REL].. [--restart-emulator] [--out FILE] [--check] NEW.rel` reads the releases below
//! DIR, the current folder without it, and makes the relup as `release_relup` says. It replaces FILE as `file_replacement`
//! says, `relup` beside NEW.rel without `--out`, and writes to standard output where FILE is `-`. With `--check` it writes
//! nothing.
//!
//! A refusal is one line on standard error. The status is 0 where a relup is made, 1 for a refusal, 2 for bad arguments, 3 out of
//! memory, and 4 where input or output failed.
#![tactic(auto)]

mod failure;
mod making;
mod options;
mod output;

use crate::failure::Failure;
use crate::making::make_text;
use crate::options::{Options, OptionsError, answer_status, read_options};
use crate::output::{destination_of, put_text};
use counted_io::CountedWriter;
use file_replacement::HostFolder;
use rel_host::RootFiles;
use std::alloc::Global;
use std::process::ExitCode;
use std::{env, io};

fn main(rt: HostRuntime) -> ExitCode {
    match run(&rt, rt.alloc()) {
        Ok(status) => ExitCode::from(status),
        Err(failure) => {
            if let Ok(line) = failure.line(rt.alloc()) {
                let _ = eprintln!(rt; "mkrelup: {line}");
            }
            ExitCode::from(failure.status())
        }
    }
}

/// The program does what the arguments say, and answers the status.
fn run(rt: &HostRuntime, alloc: Global) -> Result<u8, Failure> {
    let words = arguments(rt, alloc)?;
    match read_options(alloc, words.as_slice()) {
        Ok(options) => make(rt, alloc, &options),
        Err(OptionsError::Answered(error)) => show(rt, &error),
        Err(OptionsError::NoMemory) => Err(Failure::NoMemory),
    }
}

/// The words after the program's name.
fn arguments(rt: &HostRuntime, alloc: Global) -> Result<Vec<String>, Failure> {
    match env::args(rt) {
        Ok(words) => Ok(words.skip(1).collect(alloc)?),
        Err(_) => Err(Failure::BadArguments),
    }
}

/// Prints what `clap` answers in place of options.
fn show(rt: &HostRuntime, error: &clap::Error) -> Result<u8, Failure> {
    match error.print(rt) {
        Ok(()) => Ok(answer_status(error)),
        Err(_) => Err(Failure::Output),
    }
}

/// Makes the relup, reports the warnings, and puts the text where it goes.
fn make(rt: &HostRuntime, alloc: Global, options: &Options) -> Result<u8, Failure> {
    let files = RootFiles::new(rt, Some(options.root.clone()?));
    let made = make_text(alloc, &files, options)?;
    for warning in &made.warnings {
        let _ = eprintln!(rt; "mkrelup: warning: {warning}");
    }
    let destination = destination_of(alloc, options)?;
    let mut folder = HostFolder::new(rt);
    let mut output = CountedWriter::new(io::writer(rt));
    put_text(
        alloc,
        &mut folder,
        &mut output,
        &destination,
        made.text.as_str(),
    )?;
    Ok(0)
}
