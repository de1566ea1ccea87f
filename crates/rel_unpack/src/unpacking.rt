//! What a release brings.
ghost use Rattle.std.specs.Prelude.{◌≡◌, ◌≢◌, map, IfOk, IfSome};
ghost use Rattle.std.specs.Option.{option_map};
ghost use Rattle.erl_term.specs.Value.{value_of};
ghost use Rattle.erl_term.specs.Within.{IsWithin};
ghost use Rattle.library.specs.InMemory.{shared_of};
ghost use Rattle.rel_check.specs.Fault.{fault_of, release_fault};
ghost use Rattle.rel_check.specs.InMemory.{named_of};
ghost use Rattle.rel_check.specs.declared.fault.ReleaseFault.TheVariants.{NoMemory};
ghost use Rattle.rel_files.specs.Release.{application_of};
ghost use Rattle.rel_unpack.specs.Order.{Answers};
ghost use Rattle.rel_unpack.specs.Refusal.{refusal_of};
ghost use Rattle.rel_unpack.specs.Unpacking.{BroughtAt, RelupRead, UnpackedLibraries, brought_of, libraries_of, refusal_for, refusal_in, relup_read_of, twice_in};

use crate::applications::{ApplicationFiles, read_libraries};
use crate::error::{FileTrouble, UnpackError};
use crate::paths::app_path;
use crate::release::read_release;
use crate::relup::read_relup_beside;
use file_source::Files;
use library::Library;
use rel_check::{Named, ReleaseFault, check_release};
use rel_files::{FileFault, RelApp, RelFile};
use relup_file::RelupFile;
use std::alloc::{AllocError, Global};
use std::rc::Rc;

/// What the files of a release gave.
#[derive(Drop)]
pub struct ReleaseFiles {
    /// What its `.rel` file says.
    pub file: RelFile,
    /// What the files of its applications gave.
    pub applications: ApplicationFiles,
    /// Its relup, if it has one, or why the release is refused for it. That is never `NoMemory`. Where the release is refused
    /// for its applications, the relup isn't read, and this is none.
    pub relup: Result<Option<RelupFile>, UnpackError>,
}

/// The release of a path, what the files of its applications give, as [`unpack_applications`] answers it, and then its relup,
/// as [`read_relup_beside`] answers it. So files are read, up to the first that isn't taken, before anything else is asked.
pub fn unpack_release<F: Files>(
    alloc: Global,
    files: &F,
    path: &str,
) -> Result<ReleaseFiles, UnpackError>
    ensures answer { Answers brought_of (BroughtAt (F.gives files.now) path.now) result }
    ensures within { IfOk result (λ r. IsWithin 65 (value_of r.file.term)) }
    ensures relup_within { IfOk result
        (λ r. IfSome (brought_of r).relup (λ found. IsWithin 65 found.term)) }
{
    let file = read_release(alloc, files, path)?;
    let applications = unpack_applications(alloc, files, file.release.apps.as_slice())?;
    let refusal = &applications.refusal;
    let relup = relup_unless_refused(alloc, files, path, file.release.vsn.as_str(), refusal)?;
    Ok(ReleaseFiles {
        file,
        applications,
        relup,
    })
}

// What is read of the relup of a release of this version, where it isn't refused for its applications.
fn relup_unless_refused<F: Files>(
    alloc: Global,
    files: &F,
    path: &str,
    vsn: &str,
    refusal: &Option<UnpackError>,
) -> Result<Result<Option<RelupFile>, UnpackError>, AllocError>
    ensures { IfOk result (λ read. RelupRead (F.gives files.now) path.now vsn.now
        (option_map refusal_of refusal.now) (relup_read_of read)) }
{
    if refusal.is_some() {
        return Ok(Ok(None));
    }
    match read_relup_beside(alloc, files, path, vsn) {
        Ok(relup) => Ok(Ok(relup)),
        Err(UnpackError::NoMemory) => Err(AllocError),
        Err(why) => Ok(Err(why)),
    }
}

/// The libraries of a release's applications, in their order, from their files, as [`read_libraries`] gives them; and then
/// the tests over the whole release. A name that stands twice is reported with the `.app` file of the application where it stands
/// again.
pub fn unpack_applications<F: Files>(
    alloc: Global,
    files: &F,
    apps: &[RelApp],
) -> Result<ApplicationFiles, AllocError>
    ensures { IfOk result (λ unpacked. UnpackedLibraries (F.gives files.now)
        (map application_of apps.now) (libraries_of unpacked) (refusal_in unpacked)) }
{
    let ApplicationFiles { libraries, refusal } = read_libraries(alloc, files, apps)?;
    let refusal = match refusal {
        Some(why) => Some(why),
        None => release_refusal(alloc, apps, libraries.as_slice())?,
    };
    Ok(ApplicationFiles { libraries, refusal })
}

// Why a release with these libraries is refused, if it has a fault.
fn release_refusal(
    alloc: Global,
    apps: &[RelApp],
    libraries: &[Rc<Library>],
) -> Result<Option<UnpackError>, AllocError>
    ensures { IfOk result (λ why. option_map refusal_of why ≡ option_map refusal_for
        (release_fault (map application_of apps.now) (map shared_of libraries.now))) }
{
    match check_release(alloc, apps, libraries) {
        Ok(()) => Ok(None),
        Err(fault) => Ok(Some(refusal_for(alloc, fault)?)),
    }
}

// The refusal that reports a release's fault. Out of memory is none.
fn refusal_for(alloc: Global, fault: ReleaseFault<'_>) -> Result<UnpackError, AllocError>
    ensures { IfOk result (λ error. (fault.entry ≢ NoMemory)
        × (refusal_of error ≡ refusal_for (fault_of fault.entry))) }
{
    match fault {
        ReleaseFault::ModuleTwice(named) | ReleaseFault::IdTwice(named) => twice_in(alloc, named),
        ReleaseFault::NoTable(name) => Ok(UnpackError::NoTable(String::from_str(alloc, name)?)),
        ReleaseFault::TooMany => Ok(UnpackError::TooMany),
        ReleaseFault::NoMemory => Err(AllocError),
    }
}

// The refusal for a name that stands twice.
fn twice_in(alloc: Global, named: Named<'_>) -> Result<UnpackError, AllocError>
    ensures { IfOk result (λ error. refusal_of error ≡ twice_in (named_of named.entry)) }
{
    let path = app_path(alloc, named.app)?;
    let name = String::from_str(alloc, named.name)?;
    let duplicate = FileTrouble::Fault(FileFault::Duplicate(name));
    Ok(UnpackError::BadFile(path, duplicate))
}
