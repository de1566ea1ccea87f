//! Releases of one application, `app`, with the modules `m0`, `m1` and so on, each of which its appup updates.
ghost use Rattle.std.specs.Prelude.{◌<◌};

use crate::shape::Shape;
use appup_file::{Appup, AppupEntry, AppupInstr, ModType, OtherVersion, StateChange, Update};
use rel_files::StartType;
use relup_instruction::{Direction, PurgeMode, Timeout};
use relup_translate::{ModuleNames, RelupApp, RelupRelease};
use std::alloc::{AllocError, Global};

fn module(alloc: Global, number: usize) -> Result<String, AllocError> {
    format!(in alloc; "m{number}")
}

fn update(
    alloc: Global,
    shape: Shape,
    number: usize,
    count: usize,
) -> Result<AppupInstr, AllocError>
    requires { number < count }
{
    let mut dep_mods = Vec::new(alloc);
    if let Some(dependency) = shape.dependency(number, count) {
        dep_mods.push(module(alloc, dependency)?)?;
    }
    Ok(AppupInstr::Update(Update {
        name: module(alloc, number)?,
        mod_type: ModType::Dynamic,
        timeout: Timeout::Default,
        change: StateChange::Soft,
        pre: PurgeMode::Brutal,
        post: PurgeMode::Brutal,
        dep_mods,
    }))
}

fn updates(alloc: Global, shape: Shape, count: usize) -> Result<Vec<AppupInstr>, AllocError> {
    let mut instrs = Vec::new(alloc);
    for number in 0..count {
        instrs.push(update(alloc, shape, number, count)?)?;
    }
    Ok(instrs)
}

fn modules(alloc: Global, count: usize) -> Result<Vec<String>, AllocError> {
    let mut modules = Vec::new(alloc);
    for number in 0..count {
        modules.push(module(alloc, number)?)?;
    }
    Ok(modules)
}

// The entries of an appup for version 1.
fn entries(alloc: Global, shape: Shape, count: usize) -> Result<Vec<AppupEntry>, AllocError> {
    let entry = AppupEntry {
        vsn: OtherVersion::Text(String::from_str(alloc, "1")?),
        instrs: updates(alloc, shape, count)?,
    };
    Ok(vec![in alloc; entry]?)
}

// The appup of a version, by which version 1 is left, or reached again.
fn appup(
    alloc: Global,
    direction: Direction,
    shape: Shape,
    count: usize,
    vsn: &str,
) -> Result<Appup, AllocError> {
    let vsn = String::from_str(alloc, vsn)?;
    let entries = entries(alloc, shape, count)?;
    let none = Vec::new(alloc);
    match direction {
        Direction::Up => Ok(Appup {
            vsn,
            ups: entries,
            downs: none,
        }),
        Direction::Down => Ok(Appup {
            vsn,
            ups: none,
            downs: entries,
        }),
    }
}

fn app(
    alloc: Global,
    direction: Direction,
    shape: Shape,
    count: usize,
    vsn: &str,
) -> Result<RelupApp, AllocError> {
    Ok(RelupApp {
        name: String::from_str(alloc, "app")?,
        vsn: String::from_str(alloc, vsn)?,
        start: StartType::Permanent,
        modules: ModuleNames::new(alloc, modules(alloc, count)?)?,
        appup: Some(appup(alloc, direction, shape, count, vsn)?),
    })
}

/// The release with the application in a version, which its appup reaches from version 1, or leaves for it.
pub(crate) fn release(
    alloc: Global,
    direction: Direction,
    shape: Shape,
    count: usize,
    vsn: &str,
) -> Result<RelupRelease, AllocError> {
    let app = app(alloc, direction, shape, count, vsn)?;
    let apps = vec![in alloc; app]?;
    Ok(RelupRelease {
        vsn: String::from_str(alloc, vsn)?,
        erts: String::from_str(alloc, "14")?,
        apps,
    })
}
