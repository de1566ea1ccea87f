//! The program `relstore`: what the file of a store holds.
//!
//! `relstore [--records] FILE` writes the report of `store_report` on the bytes of the file to standard output. The file is opened
//! for reading alone, read whole and closed, and no lock is taken: a node that has the store open goes on. What a node writes
//! in the meantime may be seen in part.
//!
//! The status is 0 for a sound store and 1 else, 2 for bad arguments, 3 out of memory, and 4 where input or output failed.
#![tactic(auto)]

ghost use Rattle.std.specs.Prelude.{◌≤◌, length, IfOk};

use clap::error::ErrorKind;
use clap::{Arg, ArgAction, Command};
use counted_io::CountedWriter;
use std::alloc::{AllocError, Global};
use std::io::{self, Read};
use std::process::ExitCode;
use std::{env, fs};
use store_report::{MOST_BYTES, report_of};

/// Why there is no report.
#[derive(Clone, Copy)]
enum Failure {
    /// A word is no text.
    BadArguments,
    NoMemory,
    /// The file can't be read, or is no file.
    Read,
    /// The file is longer than a store's may be.
    TooLong,
    Write,
}

impl Failure {
    fn status(self) -> u8 {
        match self {
            Failure::TooLong => 1,
            Failure::BadArguments => 2,
            Failure::NoMemory => 3,
            Failure::Read | Failure::Write => 4,
        }
    }

    fn text(self) -> &'static str {
        match self {
            Failure::BadArguments => "bad arguments",
            Failure::NoMemory => "out of memory",
            Failure::Read => "the file can't be read",
            Failure::TooLong => "the file has more than 67,108,864 bytes",
            Failure::Write => "the report can't be written",
        }
    }
}

fn main(rt: HostRuntime) -> ExitCode {
    match run(&rt, rt.alloc()) {
        Ok(status) => ExitCode::from(status),
        Err(failure) => {
            let text = failure.text();
            let _ = eprintln!(rt; "relstore: {text}");
            ExitCode::from(failure.status())
        }
    }
}

/// Carries out what the arguments say, and returns the exit status.
fn run(rt: &HostRuntime, alloc: Global) -> Result<u8, Failure> {
    let words = arguments(rt, alloc)?;
    let Ok(command) = command(alloc) else {
        return Err(Failure::NoMemory);
    };
    match command.try_get_matches_from(words.as_slice()) {
        Ok(matches) => {
            let path = matches.get_str("FILE").unwrap_or("");
            write_report(rt, alloc, path, matches.get_flag("records"))
        }
        Err(error) => show(rt, &error),
    }
}

/// The words after the program's name.
fn arguments(rt: &HostRuntime, alloc: Global) -> Result<Vec<String>, Failure> {
    match env::args(rt) {
        Ok(words) => match words.skip(1).collect(alloc) {
            Ok(words) => Ok(words),
            Err(_) => Err(Failure::NoMemory),
        },
        Err(error) => Err(failure_or(&error, Failure::BadArguments)),
    }
}

/// The arguments, as `clap` reads them.
fn command<'a>(alloc: Global) -> Result<Command<'a>, AllocError> {
    let records = Arg::new(alloc, "records")
        .long("records")
        .help("Show the place, the length and the body of each record")
        .action(ArgAction::SetTrue);
    let file = Arg::new(alloc, "FILE")
        .help("The file of the store")
        .required(true);
    Command::new(alloc, "relstore")
        .no_binary_name(true)
        .about("Reports what the file of a store holds, and changes nothing")
        .version("1")
        .arg(records)?
        .arg(file)
}

/// Prints what `clap` answers in place of arguments: a help text, a version, or a mistake.
fn show(rt: &HostRuntime, error: &clap::Error) -> Result<u8, Failure> {
    if matches!(error.kind(), ErrorKind::OutOfMemory) {
        return Err(Failure::NoMemory);
    }
    match error.print(rt) {
        Ok(()) => Ok(if error.use_stderr() { 2 } else { 0 }),
        Err(_) => Err(Failure::Write),
    }
}

/// Writes the report on the file of this path, and answers the status.
fn write_report(
    rt: &HostRuntime,
    alloc: Global,
    path: &str,
    each_record: bool,
) -> Result<u8, Failure> {
    let bytes = file_bytes(rt, alloc, path)?;
    let Ok(report) = report_of(alloc, bytes.as_slice(), each_record) else {
        return Err(Failure::NoMemory);
    };
    let mut output = CountedWriter::new(io::writer(rt));
    match output.write(report.text.as_slice()) {
        Ok(()) => Ok(if report.is_sound { 0 } else { 1 }),
        Err(_) => Err(Failure::Write),
    }
}

/// All bytes of the file of this path.
fn file_bytes(rt: &HostRuntime, alloc: Global, path: &str) -> Result<Vec<u8>, Failure>
    ensures { IfOk result (λ bytes. length bytes.items ≤ 67108864) }
{
    let mut bytes = Vec::new(alloc);
    if let Err(error) = read_file(rt, path, &mut bytes) {
        return Err(failure_or(&error, Failure::Read));
    }
    if bytes.len() > MOST_BYTES {
        return Err(Failure::TooLong);
    }
    Ok(bytes)
}

/// Puts the bytes of the file of this path at the end, as far as a store may reach and one more.
fn read_file(rt: &HostRuntime, path: &str, bytes: &mut Vec<u8>) -> io::Result<()> {
    if !fs::metadata(rt, path)?.is_file() {
        return Err(io::Error::from(io::ErrorKind::InvalidInput));
    }
    let file = fs::open(rt, path)?;
    file.take(MOST_BYTES as u64 + 1).read_to_end(bytes)?;
    Ok(())
}

/// Out of memory, where the host reports that; else this failure.
fn failure_or(error: &io::Error, failure: Failure) -> Failure {
    match error.kind() {
        io::ErrorKind::OutOfMemory => Failure::NoMemory,
        _ => failure,
    }
}
