//! What is refused of a way, and the entry of an appup that leads between two versions. Nothing here takes memory.
ghost use Rattle.std.specs.Prelude.{◌≡◌, map};
ghost use Rattle.std.specs.Option.{option_map};
ghost use Rattle.std.specs.Result.{result_map_both};
ghost use Rattle.relup_instruction.specs.Instruction.{instruction_of};
ghost use Rattle.appup_file.specs.Instruction.{appup_of, appup_instruction_of, row_of};
ghost use Rattle.relup_row.specs.Release.{relup_app_of, relup_release_of, way_of};
ghost use Rattle.relup_translate.specs.Fault.{fault_of};
ghost use Rattle.relup_translate.specs.Translation.{known, target_has_module, target_has_app, left_has_app, deleted_fault, restart_fault, low_level_fault, instruction_fault, first_fault, counting_appup, by_appup, between_versions, other_version, app_fault, way_fault, release_fault, fault_between};

use crate::fault::TranslationFault;
use appup_file::{Appup, AppupInstr, EntryFault};
use relup_instruction::{Direction, Instr};
use relup_row::{RelupApp, RelupRelease, Way};

fn known(holds: bool, fault: TranslationFault<'_>) -> Option<TranslationFault<'_>>
    ensures { option_map fault_of result ≡ known holds (fault_of fault.entry) }
{
    if holds { None } else { Some(fault) }
}

fn target_has_module<'a>(way: Way<'a>, name: &'a str) -> Option<TranslationFault<'a>>
    ensures { option_map fault_of result ≡ target_has_module (way_of way.entry) name.now }
{
    known(
        way.target.owner(name).is_some(),
        TranslationFault::UnknownModule(name),
    )
}

fn target_has_app<'a>(way: Way<'a>, app: &str, asked: &'a str) -> Option<TranslationFault<'a>>
    ensures { option_map fault_of result ≡ target_has_app (way_of way.entry) app.now asked.now }
{
    known(
        way.target.app_named(app).is_some(),
        TranslationFault::Unsupported(asked),
    )
}

fn left_has_app<'a>(way: Way<'a>, app: &str, asked: &'a str) -> Option<TranslationFault<'a>>
    ensures { option_map fault_of result ≡ left_has_app (way_of way.entry) app.now asked.now }
{
    known(
        way.left.app_named(app).is_some(),
        TranslationFault::Unsupported(asked),
    )
}

fn low_level_fault<'a>(asked: &'a str, instr: &Instr) -> Option<TranslationFault<'a>>
    ensures { option_map fault_of result ≡ low_level_fault asked.now (instruction_of instr.now) }
{
    match instr {
        Instr::PointOfNoReturn => Some(TranslationFault::Unsupported(asked)),
        Instr::RestartNewEmulator => Some(TranslationFault::NeedsNewEmulator),
        _ => None,
    }
}

// What is wrong with an instruction of the appup of an application that is left in this version.
fn instruction_fault<'a>(
    way: Way<'a>,
    left: &'a RelupApp,
    instr: &'a AppupInstr,
) -> Option<TranslationFault<'a>>
    ensures { option_map fault_of result ≡ instruction_fault (way_of way.entry)
        (relup_app_of left.now) (appup_instruction_of instr.now) }
{
    let asked = left.name.as_str();
    match instr {
        AppupInstr::Update(update) => target_has_module(way, update.name.as_str()),
        AppupInstr::LoadModule(load) => target_has_module(way, load.name.as_str()),
        AppupInstr::AddModule(added) => target_has_module(way, added.name.as_str()),
        AppupInstr::DeleteModule(deleted) => deleted_fault(left, deleted.name.as_str()),
        AppupInstr::AddApplication(app) => target_has_app(way, app.name.as_str(), asked),
        AppupInstr::RemoveApplication(app) => left_has_app(way, app.as_str(), asked),
        AppupInstr::RestartApplication(app) => restart_fault(way, app.as_str(), asked),
        AppupInstr::LowLevel(instr) => low_level_fault(asked, instr),
    }
}

fn deleted_fault<'a>(left: &RelupApp, name: &'a str) -> Option<TranslationFault<'a>>
    ensures { option_map fault_of result ≡ deleted_fault (relup_app_of left.now) name.now }
{
    known(
        left.modules.has(name),
        TranslationFault::UnknownModule(name),
    )
}

fn restart_fault<'a>(way: Way<'a>, app: &str, asked: &'a str) -> Option<TranslationFault<'a>>
    ensures { option_map fault_of result ≡ restart_fault (way_of way.entry) app.now asked.now }
{
    match left_has_app(way, app, asked) {
        Some(fault) => Some(fault),
        None => target_has_app(way, app, asked),
    }
}

fn row_fault<'a>(
    way: Way<'a>,
    left: &'a RelupApp,
    row: &'a [AppupInstr],
) -> Option<TranslationFault<'a>>
    ensures { option_map fault_of result
        ≡ first_fault (instruction_fault (way_of way.entry) (relup_app_of left.now))
        (row_of row.now) }
{
    for instr in row {
        if let Some(fault) = instruction_fault(way, left, instr) {
            return Some(fault);
        }
    }
    None
}

// The appup of an application, where it is of its version.
fn counting_appup(app: &RelupApp) -> Option<&Appup>
    ensures { option_map (λ p. appup_of p.now) result ≡ counting_appup (relup_app_of app.now) }
{
    match &app.appup {
        Some(appup) if appup.vsn.as_str() == app.vsn.as_str() => Some(appup),
        _ => None,
    }
}

// The instructions that the appup of an application has for another version.
fn by_appup<'a>(
    direction: Direction,
    app: &'a RelupApp,
    vsn: &'a str,
) -> Result<&'a [AppupInstr], TranslationFault<'a>>
    ensures { result_map_both (λ row. row_of row.now) fault_of result
        ≡ by_appup direction (relup_app_of app.now) vsn.now }
{
    let name = app.name.as_str();
    let Some(appup) = counting_appup(app) else {
        return Err(TranslationFault::NoAppup(name));
    };
    match appup.entry_for(vsn, direction) {
        Ok(row) => Ok(row),
        Err(EntryFault::NoEntry) => Err(TranslationFault::NoEntry(name, vsn)),
        Err(EntryFault::RegexVersion) => Err(TranslationFault::RegexVersion(name)),
    }
}

// The instructions from a version of an application to another one, by the appup of the higher release.
pub(crate) fn between_versions<'a>(
    direction: Direction,
    left: &'a RelupApp,
    target: &'a RelupApp,
) -> Result<&'a [AppupInstr], TranslationFault<'a>>
    ensures { result_map_both (λ row. row_of row.now) fault_of result
        ≡ between_versions direction (relup_app_of left.now) (relup_app_of target.now) }
{
    match direction {
        Direction::Up => by_appup(direction, target, left.vsn.as_str()),
        Direction::Down => by_appup(direction, left, target.vsn.as_str()),
    }
}

// The other version in which an application of the target is left.
pub(crate) fn other_version<'a>(way: Way<'a>, app: &RelupApp) -> Option<&'a RelupApp>
    ensures { option_map (λ b. relup_app_of b.now) result
        ≡ other_version (way_of way.entry) (relup_app_of app.now) }
{
    let left = way.left.app_named(app.name.as_str())?;
    if left.vsn.as_str() == app.vsn.as_str() {
        None
    } else {
        Some(left)
    }
}

fn app_fault<'a>(way: Way<'a>, app: &'a RelupApp) -> Option<TranslationFault<'a>>
    ensures { option_map fault_of result ≡ app_fault (way_of way.entry) (relup_app_of app.now) }
{
    let left = other_version(way, app)?;
    match between_versions(way.direction, left, app) {
        Ok(row) => row_fault(way, left, row),
        Err(fault) => Some(fault),
    }
}

fn apps_fault<'a>(way: Way<'a>, apps: &'a [RelupApp]) -> Option<TranslationFault<'a>>
    ensures { option_map fault_of result
        ≡ first_fault (app_fault (way_of way.entry)) (map relup_app_of apps.now) }
{
    for app in apps {
        if let Some(fault) = app_fault(way, app) {
            return Some(fault);
        }
    }
    None
}

fn way_fault(way: Way<'_>) -> Option<TranslationFault<'_>>
    ensures { option_map fault_of result ≡ way_fault (way_of way.entry) }
{
    if way.left.erts.as_str() != way.target.erts.as_str() {
        return Some(TranslationFault::NeedsNewEmulator);
    }
    apps_fault(way, &way.target.apps)
}

fn releases_fault<'a>(
    direction: Direction,
    new: &'a RelupRelease,
    others: &'a [RelupRelease],
) -> Option<TranslationFault<'a>>
    ensures { option_map fault_of result
        ≡ first_fault (release_fault direction (relup_release_of new.now))
        (map relup_release_of others.now) }
{
    for other in others {
        if let Some(fault) = way_fault(Way::between(direction, new, other)) {
            return Some(fault);
        }
    }
    None
}

// The first fault: of the upgrades, then of the downgrades.
pub(crate) fn fault_between<'a>(
    new: &'a RelupRelease,
    ups: &'a [RelupRelease],
    downs: &'a [RelupRelease],
) -> Option<TranslationFault<'a>>
    ensures { option_map fault_of result ≡ fault_between (relup_release_of new.now)
        (map relup_release_of ups.now) (map relup_release_of downs.now) }
{
    match releases_fault(Direction::Up, new, ups) {
        Some(fault) => Some(fault),
        None => releases_fault(Direction::Down, new, downs),
    }
}
