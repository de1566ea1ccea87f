//! The versions that other releases have of an application.
ghost use Rattle.std.specs.Prelude.{◌≡◌, ◌∷◌, ◌++◌, [], IfOk, OnOk, map, string_bytes};
ghost use Rattle.std.specs.List.{filter_map};
ghost use Rattle.std.specs.Option.{option_map};
ghost use Rattle.relup_row.specs.Release.{relup_app_of, relup_release_of};
ghost use Rattle.relup_by_patterns.specs.Plain.{other_vsn, asked};

use relup_row::{RelupApp, RelupRelease};
use std::alloc::{AllocError, Global};

/// The versions, other than its own, that these releases have of an application, in their order.
pub(crate) fn versions_asked(
    alloc: Global,
    app: &RelupApp,
    releases: &[RelupRelease],
) -> Result<Vec<String>, AllocError>
    ensures { IfOk result (λ v. map string_bytes v.items
        ≡ asked (relup_app_of app.now) (map relup_release_of releases.now)) }
{
    let mut asked = Vec::new(alloc);
    for release in releases {
        push_versions(alloc, app, &release.apps, &mut asked)?;
    }
    Ok(asked)
}

fn push_versions(
    alloc: Global,
    app: &RelupApp,
    others: &[RelupApp],
    asked: &mut Vec<String>,
) -> Result<(), AllocError>
    ensures { OnOk result (map string_bytes asked.new.items ≡ map string_bytes asked.old.items
        ++ filter_map (other_vsn (relup_app_of app.now)) (map relup_app_of others.now)) }
{
    for other in others {
        if let Some(vsn) = other_vsn(app, other) {
            push_version(alloc, vsn, asked)?;
        }
    }
    Ok(())
}

// The version of the other application, where it is another version of this one.
fn other_vsn<'a>(app: &RelupApp, other: &'a RelupApp) -> Option<&'a str>
    ensures { option_map (λ s. s.now) result
        ≡ other_vsn (relup_app_of app.now) (relup_app_of other.now) }
{
    if other.name.as_str() == app.name.as_str() && other.vsn.as_str() != app.vsn.as_str() {
        Some(other.vsn.as_str())
    } else {
        None
    }
}

fn push_version(alloc: Global, vsn: &str, asked: &mut Vec<String>) -> Result<(), AllocError>
    ensures { OnOk result
        (map string_bytes asked.new.items ≡ map string_bytes asked.old.items ++ (vsn.now ∷ [])) }
{
    asked.push(String::from_str(alloc, vsn)?)?;
    Ok(())
}
