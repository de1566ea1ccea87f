// Releases that come into a list.
ghost use Rattle.std.specs.Prelude.{◌≡◌, map, None, Some, IsErrOf, OnOk};
ghost use Rattle.std.specs.Option.{option_map};
ghost use Rattle.library.specs.InMemory.{shared_of};
ghost use Rattle.rel_files.specs.Release.{release_of};
ghost use Rattle.rel_records.specs.Lists.{made_by, added_by, taken_by};
ghost use Rattle.rel_records.specs.Parts.{record_read};
ghost use Rattle.relup_file.specs.Relup.{relup_of};

use crate::bundle::bring;
use crate::fault::RecordFault;
use crate::new_release::NewRelease;
use crate::reading::Record;
use library::Library;
use rel_check::is_small;
use rel_files::Rel;
use rel_list::{Event, ReleaseList};
use relup_file::Relup;
use std::alloc::Global;
use std::rc::Rc;

/// How many releases a node has at most.
pub const MOST_RELEASES: usize = 32;

// Makes the list with the release of a record.
pub(crate) fn make_new(
    alloc: Global,
    list: &mut ReleaseList,
    new: NewRelease,
) -> Result<(), RecordFault>
    ensures taken { OnOk result
        (taken_by (record_read (Record.Made new)) list.old ≡ Some list.new) }
    ensures bad { IsErrOf result RecordFault.Bad
        → taken_by (record_read (Record.Made new)) list.old ≡ None }
{
    let NewRelease {
        release,
        libraries,
        relup,
    } = new;
    make(alloc, list, release, libraries.as_slice(), relup)
}

// Takes in the release of a record.
pub(crate) fn unpack_new(
    alloc: Global,
    list: &mut ReleaseList,
    new: NewRelease,
) -> Result<(), RecordFault>
    ensures taken { OnOk result
        (taken_by (record_read (Record.Unpacked new)) list.old ≡ Some list.new) }
    ensures bad { IsErrOf result RecordFault.Bad
        → taken_by (record_read (Record.Unpacked new)) list.old ≡ None }
{
    let NewRelease {
        release,
        libraries,
        relup,
    } = new;
    unpack(alloc, list, release, libraries.as_slice(), relup)
}

// Makes the list with its first release, which has these libraries.
pub(crate) fn make(
    alloc: Global,
    list: &mut ReleaseList,
    release: Rel,
    libraries: &[Rc<Library>],
    relup: Option<Relup>,
) -> Result<(), RecordFault>
    ensures taken { OnOk result (made_by (release_of release) (map shared_of libraries.now)
        (option_map relup_of relup) list.old ≡ Some list.new) }
    ensures bad { IsErrOf result RecordFault.Bad → made_by (release_of release)
        (map shared_of libraries.now) (option_map relup_of relup) list.old ≡ None }
{
    if !is_small(&release) {
        return Err(RecordFault::Bad);
    }
    let bundle = bring(alloc, list, release, libraries, relup)?;
    Ok(list.accept(alloc, Event::Made(bundle))?)
}

// Takes in a further release, with which these libraries are new.
pub(crate) fn unpack(
    alloc: Global,
    list: &mut ReleaseList,
    release: Rel,
    libraries: &[Rc<Library>],
    relup: Option<Relup>,
) -> Result<(), RecordFault>
    ensures taken { OnOk result (added_by (release_of release) (map shared_of libraries.now)
        (option_map relup_of relup) list.old ≡ Some list.new) }
    ensures bad { IsErrOf result RecordFault.Bad → added_by (release_of release)
        (map shared_of libraries.now) (option_map relup_of relup) list.old ≡ None }
{
    if !is_small(&release) || list.len() >= MOST_RELEASES {
        return Err(RecordFault::Bad);
    }
    let bundle = bring(alloc, list, release, libraries, relup)?;
    Ok(list.accept(alloc, Event::Unpacked(bundle))?)
}
