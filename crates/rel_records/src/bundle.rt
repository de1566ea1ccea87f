// What a record brings.
ghost use Rattle.std.specs.Prelude.{◌≡◌, ◌≢◌, is_some, map, [], None, Some, IsErrOf, IfOk, MatchOption};
ghost use Rattle.std.specs.Option.{option_map};
ghost use Rattle.library.specs.InMemory.{shared_of};
ghost use Rattle.rel_check.specs.Fault.{release_fault};
ghost use Rattle.rel_files.specs.Release.{application_of, release_of};
ghost use Rattle.rel_list.specs.Keyed.{bundle_of};
ghost use Rattle.relup_file.specs.Relup.{relup_of};
ghost use Rattle.rel_records.specs.Lists.{brought_by, completed, count_new, has_fault, mismatch_in, next_library};

use crate::fault::RecordFault;
use library::Library;
use rel_check::{ReleaseFault, check_release, check_relup};
use rel_files::{Rel, RelApp};
use rel_list::{Bundle, ReleaseList};
use relup_file::Relup;
use std::alloc::{AllocError, Global};
use std::rc::Rc;

// The release with the libraries of its applications, of which these are the new ones, and its relup, where it has no fault.
pub(crate) fn bring(
    alloc: Global,
    list: &ReleaseList,
    release: Rel,
    new: &[Rc<Library>],
    relup: Option<Relup>,
) -> Result<Bundle, RecordFault>
    ensures brought { IfOk result (λ bundle. brought_by list.now (release_of release)
        (map shared_of new.now) (option_map relup_of relup) ≡ Some (bundle_of bundle)) }
    ensures bad { IsErrOf result RecordFault.Bad → brought_by list.now (release_of release)
        (map shared_of new.now) (option_map relup_of relup) ≡ None }
{
    let Some(libraries) = complete(alloc, list, release.apps.as_slice(), new)? else {
        return Err(RecordFault::Bad);
    };
    let bundle = Bundle {
        release,
        libraries,
        relup,
    };
    if has_fault(alloc, &bundle)? {
        return Err(RecordFault::Bad);
    }
    Ok(bundle)
}

// The libraries of applications, in their order, of which these are the new ones. None may be left over.
fn complete(
    alloc: Global,
    list: &ReleaseList,
    apps: &[RelApp],
    new: &[Rc<Library>],
) -> Result<Option<Vec<Rc<Library>>>, AllocError>
    ensures { IfOk result (λ libraries. option_map (λ v. map shared_of v.items) libraries
        ≡ completed list.now (map application_of apps.now) (map shared_of new.now)) }
{
    let mut libraries = Vec::with_capacity(alloc, apps.len())?;
    let mut rest = new;
    for app in apps {
        let Some((library, left)) = next_library(list, app, rest)? else {
            return Ok(None);
        };
        libraries.push(library)?;
        rest = left;
    }
    Ok(unless_left(libraries, rest))
}

// Returns the libraries, unless some of the new ones are left over.
fn unless_left(libraries: Vec<Rc<Library>>, rest: &[Rc<Library>]) -> Option<Vec<Rc<Library>>>
    ensures { MatchOption result (rest.now ≢ []) (λ all. (all ≡ libraries) × (rest.now ≡ [])) }
{
    if rest.is_empty() {
        Some(libraries)
    } else {
        None
    }
}

// The library of an application, and those that are left of the new ones: the list's own, or else the first of these.
fn next_library<'a>(
    list: &ReleaseList,
    app: &RelApp,
    new: &'a [Rc<Library>],
) -> Result<Option<(Rc<Library>, &'a [Rc<Library>])>, AllocError>
    ensures { IfOk result (λ next. option_map (λ n. (shared_of n.0, map shared_of n.1.now)) next
        ≡ next_library list.now (application_of app.now) (map shared_of new.now)) }
{
    if let Some(own) = list.library(app.name.as_str(), app.vsn.as_str()) {
        return Ok(Some((own.clone()?, new)));
    }
    let Some((library, left)) = new.split_first() else {
        return Ok(None);
    };
    if library.as_ref().is_at(app.name.as_str(), app.vsn.as_str()) {
        Ok(Some((library.clone()?, left)))
    } else {
        Ok(None)
    }
}

// How many libraries are new with a release of these applications: one for each of which the list has none.
pub(crate) fn count_new(list: &ReleaseList, apps: &[RelApp]) -> usize
    ensures { result ≡ count_new list.now (map application_of apps.now) }
{
    let mut count = 0usize;
    for app in apps {
        if list.library(app.name.as_str(), app.vsn.as_str()).is_none() {
            count += 1;
        }
    }
    count
}

// Whether the release has a fault with its libraries, or can't have its relup.
fn has_fault(alloc: Global, bundle: &Bundle) -> Result<bool, AllocError>
    ensures { IfOk result (λ has. has ≡ has_fault (bundle_of bundle.now)) }
{
    let with_libraries = has_release_fault(
        alloc,
        bundle.release.apps.as_slice(),
        bundle.libraries.as_slice(),
    )?;
    Ok(with_libraries || has_mismatch(bundle))
}

// Whether the release can't have its relup.
fn has_mismatch(bundle: &Bundle) -> bool
    ensures { result ≡ is_some (mismatch_in (bundle_of bundle.now)) }
{
    match &bundle.relup {
        Some(relup) => check_relup(bundle.release.vsn.as_str(), relup).is_err(),
        None => false,
    }
}

// Whether a release of these applications has a fault with these libraries.
fn has_release_fault(
    alloc: Global,
    apps: &[RelApp],
    libraries: &[Rc<Library>],
) -> Result<bool, AllocError>
    ensures { IfOk result (λ has. has ≡ is_some
        (release_fault (map application_of apps.now) (map shared_of libraries.now))) }
{
    match check_release(alloc, apps, libraries) {
        Ok(()) => Ok(false),
        Err(ReleaseFault::NoMemory) => Err(AllocError),
        Err(_) => Ok(true),
    }
}
