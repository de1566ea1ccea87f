//! Releases with plain appups.
ghost use Rattle.std.specs.Prelude.{◌≡◌, IfOk, IfErr, map, string_bytes};
ghost use Rattle.std.specs.List.{AllZip};
ghost use Rattle.relup_row.specs.Release.{relup_app_of, relup_release_of};
ghost use Rattle.relup_by_patterns.specs.Plain.{IfBad, IsPlainApp, IsPlainRelease, AppHasFault, AppsHaveFault};

use crate::PatternError;
use crate::appups::plain_appup_of;
use relup_row::{ModuleNames, RelupApp, RelupRelease};
use std::alloc::{AllocError, Global};

/// The release with plain appups: of each application, the entries that lead up to it from the versions which the releases `ups`
/// have, and down from it to those which `downs` have. All else of it stays. Each appup is made plain, whether or not it is of the
/// version of its application.
pub fn plain_release(
    alloc: Global,
    new: &RelupRelease,
    ups: &[RelupRelease],
    downs: &[RelupRelease],
) -> Result<RelupRelease, PatternError>
    ensures made { IfOk result (λ plain. IsPlainRelease (map relup_release_of ups.now)
        (map relup_release_of downs.now) (relup_release_of new.now) (relup_release_of plain)) }
    ensures refused { IfErr result (λ e. IfBad e (AppsHaveFault (map relup_release_of ups.now)
        (map relup_release_of downs.now) (relup_release_of new.now).apps)) }
{
    Ok(RelupRelease {
        vsn: new.vsn.clone()?,
        erts: new.erts.clone()?,
        apps: plain_apps(alloc, &new.apps, ups, downs)?,
    })
}

fn plain_apps(
    alloc: Global,
    apps: &[RelupApp],
    ups: &[RelupRelease],
    downs: &[RelupRelease],
) -> Result<Vec<RelupApp>, PatternError>
    ensures made { IfOk result (λ v. AllZip (IsPlainApp (map relup_release_of ups.now)
        (map relup_release_of downs.now)) (map relup_app_of apps.now) (map relup_app_of v.items)) }
    ensures refused { IfErr result (λ e. IfBad e (AppsHaveFault (map relup_release_of ups.now)
        (map relup_release_of downs.now) (map relup_app_of apps.now))) }
{
    let mut plain = Vec::with_capacity(alloc, apps.len())?;
    for app in apps {
        plain.push(plain_app(alloc, app, ups, downs)?)?;
    }
    Ok(plain)
}

fn plain_app(
    alloc: Global,
    app: &RelupApp,
    ups: &[RelupRelease],
    downs: &[RelupRelease],
) -> Result<RelupApp, PatternError>
    ensures made { IfOk result (λ plain. IsPlainApp (map relup_release_of ups.now)
        (map relup_release_of downs.now) (relup_app_of app.now) (relup_app_of plain)) }
    ensures refused { IfErr result (λ e. IfBad e (AppHasFault (map relup_release_of ups.now)
        (map relup_release_of downs.now) (relup_app_of app.now))) }
{
    Ok(RelupApp {
        name: app.name.clone()?,
        vsn: app.vsn.clone()?,
        start: app.start,
        modules: copy_modules(alloc, &app.modules)?,
        appup: plain_appup_of(alloc, app, ups, downs)?,
    })
}

fn copy_modules(alloc: Global, modules: &ModuleNames) -> Result<ModuleNames, AllocError>
    ensures { IfOk result (λ copy. copy ≡ modules.now) }
{
    ModuleNames::new(alloc, copy_names(alloc, modules.as_slice())?)
}

fn copy_names(alloc: Global, names: &[String]) -> Result<Vec<String>, AllocError>
    ensures { IfOk result (λ v. map string_bytes v.items ≡ map string_bytes names.now) }
{
    let mut copied = Vec::with_capacity(alloc, names.len())?;
    for name in names {
        copied.push(name.clone()?)?;
    }
    Ok(copied)
}
