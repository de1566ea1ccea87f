//! The script between two releases, as it is judged.
ghost use Rattle.std.specs.Prelude.{◌≡◌, ◌++◌, IfOk, OnOk, map};
ghost use Rattle.std.specs.List.{filter_map, flat_map};
ghost use Rattle.std.specs.Option.{option_map};
ghost use Rattle.appup_file.specs.Instruction.{appup_instruction_of, row_of};
ghost use Rattle.relup_lint.specs.Script.{all_placed, all_targets, target_of};
ghost use Rattle.relup_row.specs.Release.{relup_app_of, relup_release_of, way_of};
ghost use Rattle.release_relup.specs.Scripts.{coming, all_coming, app_placed, target_app};

use appup_file::{AddedApp, AppupInstr};
use relup_instruction::Direction;
use relup_lint::{PlacedInstr, TargetApp, push_entry};
use relup_row::{RelupApp, RelupRelease, Way};
use runtime_change::row_between;
use std::alloc::{AllocError, Global};

// The instruction that an application is where the target alone has it.
fn coming(way: Way<'_>, app: &RelupApp) -> Result<Option<AppupInstr>, AllocError>
    ensures { IfOk result (λ o. option_map appup_instruction_of o
        ≡ coming (way_of way.entry) (relup_app_of app.now)) }
{
    match way.left.app_named(app.name.as_str()) {
        Some(_) => Ok(None),
        None => Ok(Some(AppupInstr::AddApplication(AddedApp {
            name: app.name.clone()?,
            start: app.start,
        }))),
    }
}

fn push_coming(
    way: Way<'_>,
    apps: &[RelupApp],
    instrs: &mut Vec<AppupInstr>,
) -> Result<(), AllocError>
    ensures { OnOk result (row_of instrs.new.items ≡ row_of instrs.old.items
        ++ filter_map (coming (way_of way.entry)) (map relup_app_of apps.now)) }
{
    for app in apps {
        if let Some(instr) = coming(way, app)? {
            instrs.push(instr)?;
        }
    }
    Ok(())
}

/// What the applications are that the target alone has, in its order.
pub(crate) fn all_coming(alloc: Global, way: Way<'_>) -> Result<Vec<AppupInstr>, AllocError>
    ensures { IfOk result (λ v. row_of v.items ≡ all_coming (way_of way.entry)) }
{
    let mut instrs = Vec::new(alloc);
    push_coming(way, &way.target.apps, &mut instrs)?;
    Ok(instrs)
}

fn push_app<'a>(
    direction: Direction,
    other: &RelupRelease,
    app: &'a RelupApp,
    script: &mut Vec<PlacedInstr<'a>>,
) -> Result<(), AllocError>
    ensures { OnOk result (all_placed script.new.items ≡ all_placed script.old.items
        ++ app_placed direction (relup_release_of other.now) (relup_app_of app.now)) }
{
    match row_between(direction, other, app) {
        Some(row) => push_entry(app.name.as_str(), row, script),
        None => Ok(()),
    }
}

/// Appends the entries that applications take to their versions in another release, or from them.
pub(crate) fn push_apps<'a>(
    direction: Direction,
    other: &RelupRelease,
    apps: &'a [RelupApp],
    script: &mut Vec<PlacedInstr<'a>>,
) -> Result<(), AllocError>
    ensures { OnOk result (all_placed script.new.items ≡ all_placed script.old.items
        ++ flat_map (app_placed direction (relup_release_of other.now))
        (map relup_app_of apps.now)) }
{
    for app in apps {
        push_app(direction, other, app, script)?;
    }
    Ok(())
}

/// The applications of a release as a target.
pub(crate) fn target_apps(
    alloc: Global,
    release: &RelupRelease,
) -> Result<Vec<TargetApp<'_>>, AllocError>
    ensures { IfOk result (λ v. all_targets v.items
        ≡ map target_app (relup_release_of release.now).apps) }
{
    let mut target = Vec::with_capacity(alloc, release.apps.len())?;
    for app in &release.apps {
        target.push(target_app(app))?;
    }
    Ok(target)
}

fn target_app(app: &RelupApp) -> TargetApp<'_>
    ensures { target_of result ≡ target_app (relup_app_of app.now) }
{
    TargetApp {
        name: app.name.as_str(),
        vsn: app.vsn.as_str(),
        modules: app.modules.as_slice(),
    }
}
