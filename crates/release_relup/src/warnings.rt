//! What `systools` warns of.
ghost use Rattle.std.specs.Prelude.{◌≡◌, IfOk, map, option_map, string_bytes};
ghost use Rattle.appup_file.specs.Instruction.{appup_of};
ghost use Rattle.relup_command.specs.Releases.{releases_of};
ghost use Rattle.relup_row.specs.Release.{relup_app_of, relup_release_of};
ghost use Rattle.release_relup.specs.Warnings.{has_other, is_asked, has_another_version, warning_line, warning_of, warnings};

use crate::refusal::appup_path;
use appup_file::Appup;
use relup_command::Releases;
use relup_row::{RelupApp, RelupRelease};
use std::alloc::{AllocError, Global};

// A line for each appup that counts though it is of another version than its application.
pub(crate) fn warnings_of(alloc: Global, releases: &Releases) -> Result<Vec<String>, AllocError>
    ensures { IfOk result (λ lines.
        map string_bytes lines.items ≡ warnings (releases_of releases.now)) }
{
    let mut lines = Vec::new(alloc);
    for app in &releases.new.apps {
        if let Some(line) = warning_of(alloc, releases, app)? {
            lines.push(line)?;
        }
    }
    Ok(lines)
}

fn warning_of(
    alloc: Global,
    releases: &Releases,
    app: &RelupApp,
) -> Result<Option<String>, AllocError>
    ensures { IfOk result (λ o. option_map string_bytes o
        ≡ warning_of (releases_of releases.now) (relup_app_of app.now)) }
{
    match &app.appup {
        Some(appup) => {
            if appup.vsn.as_str() != app.vsn.as_str() && is_asked(releases, app) {
                Ok(Some(warning_line(alloc, app, appup)?))
            } else {
                Ok(None)
            }
        }
        None => Ok(None),
    }
}

fn warning_line(alloc: Global, app: &RelupApp, appup: &Appup) -> Result<String, AllocError>
    ensures { IfOk result (λ line. string_bytes line
        ≡ warning_line (relup_app_of app.now) (appup_of appup.now)) }
{
    let path = appup_path(alloc, app.name.as_str(), app.vsn.as_str())?;
    let vsn = appup.vsn.as_str();
    format!(in alloc; "{path}: the appup is of version {vsn}, and counts")
}

// Whether the appup of an application is asked for another version.
fn is_asked(releases: &Releases, app: &RelupApp) -> bool
    ensures { result ≡ is_asked (releases_of releases.now) (relup_app_of app.now) }
{
    has_other(&releases.ups, app) || has_other(&releases.downs, app)
}

// Whether one of these releases has the application in another version.
fn has_other(others: &[RelupRelease], app: &RelupApp) -> bool
    ensures { result ≡ has_other (map relup_release_of others.now) (relup_app_of app.now) }
{
    for other in others {
        if has_another_version(other, app) {
            return true;
        }
    }
    false
}

// Whether a release has the application in another version.
fn has_another_version(other: &RelupRelease, app: &RelupApp) -> bool
    ensures { result ≡ has_another_version (relup_app_of app.now) (relup_release_of other.now) }
{
    match other.app_named(app.name.as_str()) {
        Some(found) => found.vsn.as_str() != app.vsn.as_str(),
        None => false,
    }
}
