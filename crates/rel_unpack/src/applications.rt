//! The libraries of a release's applications.
ghost use Rattle.std.specs.Prelude.{◌≡◌, map, IfOk};
ghost use Rattle.rel_files.specs.AppInMemory.{specification_of};
ghost use Rattle.library.specs.InMemory.{library_of};
ghost use Rattle.rel_files.specs.Release.{application_of};
ghost use Rattle.rel_unpack.specs.Applications.{AppAt, LibrariesAt, LibraryAt, app_form, is_named};
ghost use Rattle.rel_unpack.specs.Order.{Answers};
ghost use Rattle.rel_unpack.specs.Source.{FileSays};
ghost use Rattle.rel_unpack.specs.Unpacking.{libraries_of, refusal_in};

use crate::error::UnpackError;
use crate::paths::app_path;
use crate::source::{read_bytes, refusal_for};
use crate::tables::read_tables;
use file_source::Files;
use library::Library;
use rel_files::{App, RelApp, read_app};
use std::alloc::{AllocError, Global};
use std::rc::Rc;

/// What the files of a release's applications gave.
#[derive(Drop)]
pub struct ApplicationFiles {
    /// The libraries of the applications, in their order: all of them, or those before the first file that isn't taken.
    pub libraries: Vec<Rc<Library>>,
    /// Why the release is refused for its applications, if it is. That is never `NoMemory`.
    pub refusal: Option<UnpackError>,
}

/// The libraries of a release's applications, in their order, from their files, up to the first file that isn't taken.
pub fn read_libraries<F: Files>(
    alloc: Global,
    files: &F,
    apps: &[RelApp],
) -> Result<ApplicationFiles, AllocError>
    ensures { IfOk result (λ read. LibrariesAt (F.gives files.now) (map application_of apps.now)
        (libraries_of read) (refusal_in read)) }
{
    let mut libraries = Vec::with_capacity(alloc, apps.len())?;
    for app in apps {
        match read_library(alloc, files, app) {
            Ok(library) => libraries.push(Rc::new(alloc, library)?)?,
            Err(UnpackError::NoMemory) => return Err(AllocError),
            Err(why) => {
                return Ok(ApplicationFiles {
                    libraries,
                    refusal: Some(why),
                });
            }
        }
    }
    Ok(ApplicationFiles {
        libraries,
        refusal: None,
    })
}

// The library of an application, from its files.
fn read_library<F: Files>(alloc: Global, files: &F, app: &RelApp) -> Result<Library, UnpackError>
    ensures { Answers library_of
        (LibraryAt (F.gives files.now) (application_of app.now)) result }
{
    let specification = read_application(alloc, files, app)?;
    let tables = read_tables(alloc, files, app, specification.modules.as_slice())?;
    Ok(Library {
        app: specification,
        tables,
    })
}

/// What the file of an application says.
pub fn read_application<F: Files>(
    alloc: Global,
    files: &F,
    app: &RelApp,
) -> Result<App, UnpackError>
    ensures { Answers specification_of
        (AppAt (F.gives files.now) (application_of app.now)) result }
{
    let path = app_path(alloc, app)?;
    let found = app_in(alloc, files, path.as_str())?;
    if is_named(app, &found) {
        Ok(found)
    } else {
        Err(UnpackError::VsnMismatch(path))
    }
}

// Whether the application has the name and the version that the release says.
fn is_named(app: &RelApp, found: &App) -> bool
    ensures { result ≡ is_named (application_of app.now) (specification_of found.now) }
{
    found.name.as_str() == app.name.as_str() && found.vsn.as_str() == app.vsn.as_str()
}

fn app_in<F: Files>(alloc: Global, files: &F, path: &str) -> Result<App, UnpackError>
    ensures { Answers specification_of (FileSays app_form (F.gives files.now) path.now) result }
{
    let bytes = read_bytes(alloc, files, path)?;
    match read_app(alloc, bytes.as_slice()) {
        Ok(app) => Ok(app),
        Err(fault) => Err(refusal_for(alloc, path, fault)),
    }
}
