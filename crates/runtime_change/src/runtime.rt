//! Where a way leads to another runtime system.
ghost use Rattle.std.specs.Prelude.{◌≡◌, map};
ghost use Rattle.std.specs.List.{list_any};
ghost use Rattle.std.specs.Option.{option_map};
ghost use Rattle.appup_file.specs.Instruction.{appup_of, appup_instruction_of, row_of};
ghost use Rattle.relup_row.specs.Release.{relup_app_of, relup_release_of};
ghost use Rattle.runtime_change.specs.Runtime.{asks_new, appup_row, row_between, app_asks, changes_runtime};

use appup_file::{Appup, AppupInstr};
use relup_instruction::{Direction, Instr};
use relup_row::{RelupApp, RelupRelease};

/// Whether an instruction of an appup asks for another runtime system.
pub(crate) fn asks_new(instr: &AppupInstr) -> bool
    ensures { result ≡ asks_new (appup_instruction_of instr.now) }
{
    match instr {
        AppupInstr::LowLevel(Instr::RestartNewEmulator) => true,
        _ => false,
    }
}

// The instructions that an appup has for a version.
fn appup_row<'a>(
    direction: Direction,
    vsn: &str,
    appup: &'a Option<Appup>,
) -> Option<&'a [AppupInstr]>
    ensures { option_map (λ row. row_of row.now) result
        ≡ appup_row direction vsn.now (option_map appup_of appup.now) }
{
    match appup {
        Some(appup) => match appup.entry_for(vsn, direction) {
            Ok(row) => Some(row),
            Err(_) => None,
        },
        None => None,
    }
}

/// The instructions that an application has between its version and the one in which another release has it, where that is another
/// version and its appup has an entry for it, of whatever version the appup is.
pub fn row_between<'a>(
    direction: Direction,
    other: &RelupRelease,
    app: &'a RelupApp,
) -> Option<&'a [AppupInstr]>
    ensures { option_map (λ row. row_of row.now) result
        ≡ row_between direction (relup_release_of other.now) (relup_app_of app.now) }
{
    match other.app_named(app.name.as_str()) {
        Some(found) => {
            if found.vsn.as_str() == app.vsn.as_str() {
                None
            } else {
                appup_row(direction, found.vsn.as_str(), &app.appup)
            }
        }
        None => None,
    }
}

fn any_asks_new(row: &[AppupInstr]) -> bool
    ensures { result ≡ list_any asks_new (row_of row.now) }
{
    for instr in row {
        if asks_new(instr) {
            return true;
        }
    }
    false
}

fn app_asks(direction: Direction, other: &RelupRelease, app: &RelupApp) -> bool
    ensures { result ≡ app_asks direction (relup_release_of other.now) (relup_app_of app.now) }
{
    match row_between(direction, other, app) {
        Some(row) => any_asks_new(row),
        None => false,
    }
}

fn any_app_asks(direction: Direction, other: &RelupRelease, apps: &[RelupApp]) -> bool
    ensures { result
        ≡ list_any (app_asks direction (relup_release_of other.now)) (map relup_app_of apps.now) }
{
    for app in apps {
        if app_asks(direction, other, app) {
            return true;
        }
    }
    false
}

/// Whether the way between a release and another one leads to another runtime system: they are for different versions of it, or
/// the entry of an appup that the way takes asks for one.
pub fn changes_runtime(direction: Direction, new: &RelupRelease, other: &RelupRelease) -> bool
    ensures { result
        ≡ changes_runtime direction (relup_release_of new.now) (relup_release_of other.now) }
{
    new.erts.as_str() != other.erts.as_str() || any_app_asks(direction, other, &new.apps)
}
