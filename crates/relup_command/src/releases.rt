//! The releases that a relup is made of, from their files.
ghost use Rattle.std.specs.Prelude.{◌≡◌, IfOk, map, string_bytes};
ghost use Rattle.rel_files.specs.AppInMemory.{specification_of};
ghost use Rattle.rel_files.specs.Release.{application_of, release_of};
ghost use Rattle.rel_unpack.specs.Order.{Answers, Each};
ghost use Rattle.relup_row.specs.Release.{relup_app_of, relup_release_of};
ghost use Rattle.relup_command.specs.Releases.{RelupAppAt, RelupReleaseAt, ReleasesAt, WithAppups, releases_of, relup_app, relup_release};

use crate::appups::read_appups;
use file_source::Files;
use rel_files::{App, Rel, RelApp, StartType};
use rel_unpack::{UnpackError, read_application, read_release};
use relup_translate::{ModuleNames, RelupApp, RelupRelease};
use std::alloc::{AllocError, Global};

/// A release with its appups, those that it comes from, and those that it goes back to.
pub struct Releases {
    pub new: RelupRelease,
    pub ups: Vec<RelupRelease>,
    pub downs: Vec<RelupRelease>,
}

// Let go by one call: a derived drop would stand field by field at each exit of a caller.
impl Drop for Releases {
    fn drop(self) {
        let Releases {
            new: _new,
            ups: _ups,
            downs: _downs,
        } = self;
    }
}

/// The releases of these paths. The appups of the new one are read after all other files.
pub fn read_releases<F: Files>(
    alloc: Global,
    files: &F,
    new: &str,
    ups: &[String],
    downs: &[String],
) -> Result<Releases, UnpackError>
    ensures { Answers releases_of (ReleasesAt (F.gives files.now) new.now
        (map string_bytes ups.now) (map string_bytes downs.now)) result }
{
    let release = read_one(alloc, files, new)?;
    let ups = read_all(alloc, files, ups)?;
    let downs = read_all(alloc, files, downs)?;
    let new = with_appups(alloc, files, release)?;
    Ok(Releases { new, ups, downs })
}

// The release with the appups of its applications.
fn with_appups<F: Files>(
    alloc: Global,
    files: &F,
    mut release: RelupRelease,
) -> Result<RelupRelease, UnpackError>
    ensures { Answers relup_release_of
        (WithAppups (F.gives files.now) (relup_release_of release)) result }
{
    read_appups(alloc, files, &mut release.apps)?;
    Ok(release)
}

// The releases of some paths, in their order.
fn read_all<F: Files>(
    alloc: Global,
    files: &F,
    paths: &[String],
) -> Result<Vec<RelupRelease>, UnpackError>
    ensures { Answers (λ v. map relup_release_of v.items)
        (Each (RelupReleaseAt (F.gives files.now)) (map string_bytes paths.now)) result }
{
    let mut releases = Vec::with_capacity(alloc, paths.len())?;
    for path in paths {
        releases.push(read_one(alloc, files, path.as_str())?)?;
    }
    Ok(releases)
}

// The release of a path, with its applications' modules and without appups.
fn read_one<F: Files>(alloc: Global, files: &F, path: &str) -> Result<RelupRelease, UnpackError>
    ensures { Answers relup_release_of (RelupReleaseAt (F.gives files.now) path.now) result }
{
    let file = read_release(alloc, files, path)?;
    let apps = read_apps(alloc, files, file.release.apps.as_slice())?;
    Ok(relup_release(file.release, apps))
}

fn relup_release(release: Rel, apps: Vec<RelupApp>) -> RelupRelease
    ensures { relup_release_of result
        ≡ relup_release (release_of release) (map relup_app_of apps.items) }
{
    let (vsn, erts) = release.into_versions();
    RelupRelease { vsn, erts, apps }
}

fn read_apps<F: Files>(
    alloc: Global,
    files: &F,
    apps: &[RelApp],
) -> Result<Vec<RelupApp>, UnpackError>
    ensures { Answers (λ v. map relup_app_of v.items)
        (Each (RelupAppAt (F.gives files.now)) (map application_of apps.now)) result }
{
    let mut read = Vec::with_capacity(alloc, apps.len())?;
    for app in apps {
        read.push(read_app(alloc, files, app)?)?;
    }
    Ok(read)
}

// An application with its modules and without its appup.
fn read_app<F: Files>(alloc: Global, files: &F, app: &RelApp) -> Result<RelupApp, UnpackError>
    ensures { Answers relup_app_of
        (RelupAppAt (F.gives files.now) (application_of app.now)) result }
{
    let found = read_application(alloc, files, app)?;
    if found.has_few_modules() {
        Ok(relup_app(alloc, app.start, found)?)
    } else {
        Err(UnpackError::TooMany)
    }
}

fn relup_app(alloc: Global, start: StartType, found: App) -> Result<RelupApp, AllocError>
    ensures { IfOk result (λ app.
        relup_app_of app ≡ relup_app start (specification_of found)) }
{
    let (name, vsn, modules) = found.into_names();
    Ok(RelupApp {
        name,
        vsn,
        start,
        modules: ModuleNames::new(alloc, modules)?,
        appup: None,
    })
}
