//! What it takes to make a relup of many modules, and in which order they come.
//!
//! Relups are made up and down between two versions of an application with 100, 1,000 and 4,000 updated modules: without
//! dependencies, in a chain, in a cycle and in a star. Of each it is written which modules are suspended first and last, and
//! which are loaded first and last, and on standard error the microseconds of processor time.
use crate::releases::release;
use crate::shape::Shape;
use relup_file::{Relup, RelupEntry};
use relup_instruction::{Direction, Instr, Suspension};
use relup_translate::{RelupRelease, make_relup};
use std::alloc::Global;
use std::io;
use std::time::CpuClock;

// The modules that a script suspends.
fn suspensions(script: &[Instr]) -> &[Suspension] {
    for instr in script {
        if let Instr::Suspend(suspensions) = instr {
            return suspensions;
        }
    }
    &[]
}

fn first_load(script: &[Instr]) -> &str {
    for instr in script {
        if let Instr::Load(load) = instr {
            return load.name.as_str();
        }
    }
    "none"
}

fn last_load(script: &[Instr]) -> &str {
    let mut last = "none";
    for instr in script {
        if let Instr::Load(load) = instr {
            last = load.name.as_str();
        }
    }
    last
}

fn name_of(suspension: Option<&Suspension>) -> &str {
    match suspension {
        Some(suspension) => suspension.name.as_str(),
        None => "none",
    }
}

fn entries(direction: Direction, relup: &Relup) -> &[RelupEntry] {
    match direction {
        Direction::Up => relup.ups.as_slice(),
        Direction::Down => relup.downs.as_slice(),
    }
}

fn name_of_direction(direction: Direction) -> &'static str {
    match direction {
        Direction::Up => "up",
        Direction::Down => "down",
    }
}

fn write_orders(rt: &HostRuntime, kind: &str, count: usize, entry: &RelupEntry) -> io::Result<()> {
    let suspensions = suspensions(&entry.script);
    println!(rt;
        "{kind} {count}: suspends {} to {}, loads {} to {}",
        name_of(suspensions.first()),
        name_of(suspensions.last()),
        first_load(&entry.script),
        last_load(&entry.script)
    )
}

fn made(
    alloc: Global,
    direction: Direction,
    new: &RelupRelease,
    old: RelupRelease,
) -> Option<Relup> {
    let others = vec![in alloc; old].ok()?;
    match direction {
        Direction::Up => make_relup(alloc, new, &others, &[]).ok(),
        Direction::Down => make_relup(alloc, new, &[], &others).ok(),
    }
}

fn measure(rt: &HostRuntime, direction: Direction, shape: Shape, count: usize) -> io::Result<()> {
    let (Ok(new), Ok(old), Ok(kind)) = (
        release(rt.alloc(), direction, shape, count, "2"),
        release(rt.alloc(), direction, shape, count, "1"),
        format!(in rt.alloc(); "{} {}", shape.name(), name_of_direction(direction)),
    ) else {
        return Ok(());
    };
    measure_as(rt, direction, kind.as_str(), count, &new, old)
}

fn measure_as(
    rt: &HostRuntime,
    direction: Direction,
    kind: &str,
    count: usize,
    new: &RelupRelease,
    old: RelupRelease,
) -> io::Result<()> {
    let start = rt.thread_cpu_time()?;
    let relup = made(rt.alloc(), direction, new, old);
    let end = rt.thread_cpu_time()?;
    if let Some(relup) = relup {
        for entry in entries(direction, &relup) {
            write_orders(rt, kind, count, entry)?;
        }
    }
    let taken = end.as_micros().saturating_sub(start.as_micros());
    eprintln!(rt; "{kind} {count} {taken}")
}

fn measure_all(rt: &HostRuntime, direction: Direction, count: usize) -> io::Result<()> {
    measure(rt, direction, Shape::Free, count)?;
    measure(rt, direction, Shape::Chain, count)?;
    measure(rt, direction, Shape::Cycle, count)?;
    measure(rt, direction, Shape::Star, count)
}

/// Measures the making of relups.
pub(crate) fn measure_relups(rt: &HostRuntime) -> io::Result<()> {
    for count in [100, 1000, 4000] {
        measure_all(rt, Direction::Up, count)?;
        measure_all(rt, Direction::Down, count)?;
    }
    Ok(())
}
