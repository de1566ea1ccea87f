// What an image makes of a list.
ghost use Rattle.std.specs.Prelude.{◌≡◌, map, [], None, Some, IsErrOf, IfOk, OnOk};
ghost use Rattle.library.specs.InMemory.{shared_of};
ghost use Rattle.rel_records.specs.Lists.{comes_in, all_come_in, own_status, restored, taken_by};
ghost use Rattle.rel_records.specs.Parts.{assignment_read, imaged_read, record_read};

use crate::assignment::{Assignment, assign_all};
use crate::bundle::count_new;
use crate::fault::RecordFault;
use crate::imaged::{Image, Imaged};
use crate::reading::Record;
use crate::releases::{make, unpack};
use library::Library;
use rel_list::ReleaseList;
use std::alloc::{AllocError, Global};
use std::rc::Rc;

// Makes the list of an image, where there is none yet.
pub(crate) fn restore_on(
    alloc: Global,
    list: &mut ReleaseList,
    image: Image,
) -> Result<(), RecordFault>
    ensures taken { OnOk result
        (taken_by (record_read (Record.Image image)) list.old ≡ Some list.new) }
    ensures bad { IsErrOf result RecordFault.Bad
        → taken_by (record_read (Record.Image image)) list.old ≡ None }
{
    if list.is_empty() {
        restore(alloc, list, image)
    } else {
        Err(RecordFault::Bad)
    }
}

// Takes the releases of an image into an empty list, and gives them their statuses.
fn restore(alloc: Global, list: &mut ReleaseList, image: Image) -> Result<(), RecordFault>
    requires { list.old ≡ [] }
    ensures taken { OnOk result (restored (map imaged_read image.releases.items)
        (map shared_of image.libraries.items) ≡ Some list.new) }
    ensures bad { IsErrOf result RecordFault.Bad → restored
        (map imaged_read image.releases.items) (map shared_of image.libraries.items) ≡ None }
{
    let Image {
        releases,
        libraries,
    } = image;
    let statuses = own_statuses(alloc, releases.as_slice())?;
    take_all_in(alloc, list, releases, libraries.as_slice())?;
    assign_all(list, statuses.as_slice())
}

// The statuses that the releases of an image get.
fn own_statuses(alloc: Global, releases: &[Imaged]) -> Result<Vec<Assignment>, AllocError>
    ensures { IfOk result (λ v. map assignment_read v.items
        ≡ map own_status (map imaged_read releases.now)) }
{
    let mut statuses = Vec::with_capacity(alloc, releases.len())?;
    for imaged in releases {
        let vsn = imaged.release.vsn.clone()?;
        let status = imaged.status;
        statuses.push(Assignment { vsn, status })?;
    }
    Ok(statuses)
}

// Takes in the releases of an image one after another, each with as many of the libraries as are new with it.
fn take_all_in(
    alloc: Global,
    list: &mut ReleaseList,
    releases: Vec<Imaged>,
    libraries: &[Rc<Library>],
) -> Result<(), RecordFault>
    ensures taken { OnOk result (all_come_in (map imaged_read releases.items)
        (map shared_of libraries.now) list.old ≡ Some list.new) }
    ensures bad { IsErrOf result RecordFault.Bad → all_come_in
        (map imaged_read releases.items) (map shared_of libraries.now) list.old ≡ None }
{
    let mut left = libraries;
    for imaged in releases {
        let count = count_new(list, imaged.release.apps.as_slice());
        let (own, rest) = left.split_at(count.min(left.len()));
        take_in(alloc, list, imaged, own)?;
        left = rest;
    }
    if left.is_empty() {
        Ok(())
    } else {
        Err(RecordFault::Bad)
    }
}

// Takes in a release of an image, with which these libraries are new: the first one, or a further one.
fn take_in(
    alloc: Global,
    list: &mut ReleaseList,
    imaged: Imaged,
    new: &[Rc<Library>],
) -> Result<(), RecordFault>
    ensures taken { OnOk result
        (comes_in (imaged_read imaged) (map shared_of new.now) list.old ≡ Some list.new) }
    ensures bad { IsErrOf result RecordFault.Bad
        → comes_in (imaged_read imaged) (map shared_of new.now) list.old ≡ None }
{
    let Imaged {
        release,
        status: _status,
        relup,
    } = imaged;
    if list.is_empty() {
        make(alloc, list, release, new, relup)
    } else {
        unpack(alloc, list, release, new, relup)
    }
}
