//! The applications that a way changes, each with the row of instructions that does it.
ghost use Rattle.std.specs.Prelude.{◌≡◌, ◌++◌, IfOk, OnOk, map, reverse};
ghost use Rattle.std.specs.List.{filter_map};
ghost use Rattle.std.specs.Option.{option_map};
ghost use Rattle.relup_row.specs.Release.{relup_app_of, relup_release_of, way_of};
ghost use Rattle.relup_translate.specs.Translation.{coming_row, changing_row, going_row, rows};
ghost use Rattle.relup_translate.specs.Memory.{row_of_change, row_of_kind, rows_of};

use crate::refusals::{between_versions, other_version};
use appup_file::AppupInstr;
use relup_row::{RelupApp, Way};
use std::alloc::{AllocError, Global};

// What becomes of an application.
#[derive(Clone, Copy)]
pub(crate) enum AppChange<'a> {
    // The application is added, as the target has it.
    Coming(&'a RelupApp),
    // The application goes over to another version by these instructions.
    Changing(&'a [AppupInstr]),
    // The application is removed.
    Going(&'a RelupApp),
}

// The kinds of what becomes of an application.
#[derive(Clone, Copy)]
enum ChangeKind {
    Coming,
    Changing,
    Going,
}

fn coming<'a>(way: Way<'a>, app: &'a RelupApp) -> Option<AppChange<'a>>
    ensures { option_map row_of_change result
        ≡ coming_row (way_of way.entry) (relup_app_of app.now) }
{
    match way.left.app_named(app.name.as_str()) {
        Some(_) => None,
        None => Some(AppChange::Coming(app)),
    }
}

fn changing<'a>(way: Way<'a>, app: &'a RelupApp) -> Option<AppChange<'a>>
    ensures { option_map row_of_change result
        ≡ changing_row (way_of way.entry) (relup_app_of app.now) }
{
    let other = other_version(way, app)?;
    match between_versions(way.direction, other, app) {
        Ok(row) => Some(AppChange::Changing(row)),
        Err(_) => None,
    }
}

fn going<'a>(way: Way<'a>, app: &'a RelupApp) -> Option<AppChange<'a>>
    ensures { option_map row_of_change result
        ≡ going_row (way_of way.entry) (relup_app_of app.now) }
{
    match way.target.app_named(app.name.as_str()) {
        Some(_) => None,
        None => Some(AppChange::Going(app)),
    }
}

fn change_of_kind<'a>(way: Way<'a>, kind: ChangeKind, app: &'a RelupApp) -> Option<AppChange<'a>>
    ensures { option_map row_of_change result
        ≡ row_of_kind kind (way_of way.entry) (relup_app_of app.now) }
{
    match kind {
        ChangeKind::Coming => coming(way, app),
        ChangeKind::Changing => changing(way, app),
        ChangeKind::Going => going(way, app),
    }
}

// Adds those of a kind, in the order of the applications.
fn push_changes_of_kind<'a>(
    way: Way<'a>,
    kind: ChangeKind,
    apps: &'a [RelupApp],
    out: &mut Vec<AppChange<'a>>,
) -> Result<(), AllocError>
    ensures { OnOk result (rows_of out.new.items ≡ rows_of out.old.items
        ++ filter_map (row_of_kind kind (way_of way.entry)) (map relup_app_of apps.now)) }
{
    for app in apps {
        if let Some(change) = change_of_kind(way, kind, app) {
            out.push(change)?;
        }
    }
    Ok(())
}

// Adds those that go, the last one first.
fn push_going<'a>(
    alloc: Global,
    way: Way<'a>,
    out: &mut Vec<AppChange<'a>>,
) -> Result<(), AllocError>
    ensures { OnOk result (rows_of out.new.items ≡ rows_of out.old.items ++ reverse
        (filter_map (going_row (way_of way.entry)) (relup_release_of way.entry.left.now).apps)) }
{
    let mut going = Vec::new(alloc);
    push_changes_of_kind(way, ChangeKind::Going, &way.left.apps, &mut going)?;
    going.reverse();
    out.extend_from_slice(&going)?;
    Ok(())
}

// All of them in their order.
pub(crate) fn changes(alloc: Global, way: Way<'_>) -> Result<Vec<AppChange<'_>>, AllocError>
    ensures { IfOk result (λ v. rows_of v.items ≡ rows (way_of way.entry)) }
{
    let mut all = Vec::new(alloc);
    push_changes_of_kind(way, ChangeKind::Coming, &way.target.apps, &mut all)?;
    push_changes_of_kind(way, ChangeKind::Changing, &way.target.apps, &mut all)?;
    push_going(alloc, way, &mut all)?;
    Ok(all)
}
