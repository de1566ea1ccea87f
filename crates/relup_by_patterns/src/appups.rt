//! Plain appups of applications.
ghost use Rattle.std.specs.Prelude.{◌≡◌, IfOk, IfErr, map};
ghost use Rattle.std.specs.Option.{option_map};
ghost use Rattle.appup_file.specs.Instruction.{entry_of, appup_of};
ghost use Rattle.appup_file.specs.Search.{entries_of};
ghost use Rattle.appup_plain.specs.Plain.{IsPlain};
ghost use Rattle.relup_row.specs.Release.{relup_app_of, relup_release_of};
ghost use Rattle.relup_by_patterns.specs.Plain.{asked, IfBad, Reports, EntriesHaveFault, IsPlainAppup, AppupHasFault, IsPlainAppupOf, AppHasFault};

use crate::versions::versions_asked;
use crate::{BadPattern, PatternError};
use appup_file::{Appup, AppupEntry};
use appup_plain::{PlainError, plain_entries};
use relup_instruction::Direction;
use relup_row::{RelupApp, RelupRelease};
use std::alloc::Global;

/// The plain appup of an application, where it has an appup.
pub(crate) fn plain_appup_of(
    alloc: Global,
    app: &RelupApp,
    ups: &[RelupRelease],
    downs: &[RelupRelease],
) -> Result<Option<Appup>, PatternError>
    ensures made { IfOk result (λ o. IsPlainAppupOf (relup_app_of app.now)
        (map relup_release_of ups.now) (map relup_release_of downs.now) (option_map appup_of o)) }
    ensures refused { IfErr result (λ e. IfBad e (AppHasFault (map relup_release_of ups.now)
        (map relup_release_of downs.now) (relup_app_of app.now))) }
{
    match &app.appup {
        Some(appup) => Ok(Some(plain_appup(alloc, app, appup, ups, downs)?)),
        None => Ok(None),
    }
}

// The appup with the entries for the versions that the other releases have of its application.
fn plain_appup(
    alloc: Global,
    app: &RelupApp,
    appup: &Appup,
    ups: &[RelupRelease],
    downs: &[RelupRelease],
) -> Result<Appup, PatternError>
    ensures made { IfOk result (λ q. IsPlainAppup (relup_app_of app.now)
        (map relup_release_of ups.now) (map relup_release_of downs.now)
        (appup_of appup.now) (appup_of q)) }
    ensures refused { IfErr result (λ e. IfBad e (AppupHasFault (map relup_release_of ups.now)
        (map relup_release_of downs.now) (relup_app_of app.now) (appup_of appup.now))) }
{
    Ok(Appup {
        vsn: appup.vsn.clone()?,
        ups: entries(alloc, app, appup, Direction::Up, ups)?,
        downs: entries(alloc, app, appup, Direction::Down, downs)?,
    })
}

// The entries of a direction.
fn entries(
    alloc: Global,
    app: &RelupApp,
    appup: &Appup,
    direction: Direction,
    others: &[RelupRelease],
) -> Result<Vec<AppupEntry>, PatternError>
    ensures made { IfOk result (λ v. IsPlain (entries_of direction (appup_of appup.now))
        (asked (relup_app_of app.now) (map relup_release_of others.now)) (map entry_of v.items)) }
    ensures refused { IfErr result (λ e. IfBad e (EntriesHaveFault direction
        (map relup_release_of others.now) (relup_app_of app.now) (appup_of appup.now))) }
{
    let asked = versions_asked(alloc, app, others)?;
    match plain_entries(alloc, appup, direction, asked.as_slice()) {
        Ok(entries) => Ok(entries),
        Err(error) => Err(pattern_error(alloc, app.name.as_str(), direction, error)),
    }
}

// The error that reports this one of an application's appup.
fn pattern_error(alloc: Global, app: &str, direction: Direction, error: PlainError) -> PatternError
    ensures { IfBad result (Reports app.now direction error) }
{
    match error {
        PlainError::BadPattern(place, fault) => match String::from_str(alloc, app) {
            Ok(app) => PatternError::BadPattern(BadPattern {
                app,
                direction,
                place,
                fault,
            }),
            Err(_) => PatternError::NoMemory,
        },
        PlainError::NoMemory => PatternError::NoMemory,
    }
}
