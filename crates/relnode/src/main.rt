//! The program `relnode`: a session of a node on standard input and output.
//!
//! `relnode [--store FILE] [--root DIR]`: the node is on a disk over this file, which a further session goes on with. Without
//! the option it is on an empty disk in memory. A file that isn't given in the session is read below this folder; without the
//! option there is none.
//!
//! What a session writes and what it leaves is said by `rel_session`; what a disk over a file trusts, by `rel_host`. A
//! program that ends before its input reports it on standard error, with the text and the exit status of its error.
#![tactic(auto)]

use counted_io::CountedWriter;
use file_source::Files;
use rel_disk::{Disk, MemDisk};
use rel_host::{Failure, FileDisk, Options, RootFiles, read_options};
use rel_session::session;
use session_input::{Input, SessionError};
use std::alloc::Global;
use std::process::ExitCode;
use std::sync::Wait;
use std::thread::Threads;
use std::{env, io};

/// How many bytes the disk in memory holds.
const DISK: usize = 8_388_608;

/// How many bytes its log of calls holds.
const LOG: usize = 2 * DISK;

fn main(rt: HostRuntime) -> ExitCode {
    let Err(failure) = run(&rt, &rt, rt.alloc()) else {
        return ExitCode::SUCCESS;
    };
    let text = failure.exit_text();
    let _ = eprintln!(rt; "relnode: {text}");
    ExitCode::from(failure.exit_status())
}

/// A session on the disk that the arguments name.
fn run<R: Threads + Wait + Sync>(rt: &R, host: &HostRuntime, alloc: Global) -> Result<(), Failure> {
    let Options { store, root } = arguments(host, alloc)?;
    let files = RootFiles::new(host, root);
    match store {
        Some(path) => run_on_file(rt, host, alloc, path.as_str(), &files),
        None => match MemDisk::new(alloc, DISK, LOG) {
            Ok(disk) => run_on(rt, host, alloc, disk, &files),
            Err(_) => Err(Failure::Session(SessionError::NoMemory)),
        },
    }
}

/// A session on the disk over the file of this path.
fn run_on_file<R: Threads + Wait + Sync, F: Files>(
    rt: &R,
    host: &HostRuntime,
    alloc: Global,
    path: &str,
    files: &F,
) -> Result<(), Failure> {
    let disk = FileDisk::open(host, alloc, path)?;
    run_on(rt, host, alloc, disk, files)
}

/// The options that the program was given.
fn arguments(host: &HostRuntime, alloc: Global) -> Result<Options, Failure> {
    let Ok(arguments) = env::args(host) else {
        return Err(Failure::BadArguments);
    };
    let words: Vec<String> = match arguments.skip(1).collect(alloc) {
        Ok(words) => words,
        Err(_) => return Err(Failure::Session(SessionError::NoMemory)),
    };
    Ok(read_options(alloc, words.as_slice())?)
}

/// A session on standard input and output, on this disk and over these files.
fn run_on<R: Threads + Wait + Sync, D: Disk + Drop, F: Files>(
    rt: &R,
    host: &HostRuntime,
    alloc: Global,
    disk: D,
    files: &F,
) -> Result<(), Failure> {
    let Ok(mut input) = Input::new(alloc, host.reader()) else {
        return Err(Failure::Session(SessionError::NoMemory));
    };
    let mut output = CountedWriter::new(io::writer(host));
    let (_disk, ended) = session(rt, alloc, disk, files, &mut input, &mut output);
    match ended {
        Ok(()) => Ok(()),
        Err(error) => Err(Failure::Session(error)),
    }
}
