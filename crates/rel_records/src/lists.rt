// What records make of a list.
ghost use Rattle.std.specs.Prelude.{◌≡◌, ◌⊎◌, ℕ, map, None, Some, IsErrOf, IfOk, IfErr, OnOk};
ghost use Rattle.rel_records.specs.Limits.{has_one_permanent};
ghost use Rattle.rel_records.specs.Lists.{taken_by, assigned_in, Makes, CannotStand, IsBadRecord};
ghost use Rattle.rel_records.specs.Parts.{record_read};
ghost use Rattle.rel_records.specs.Reading.{Spells};
ghost use Rattle.rel_records.specs.Record.{Record as RecordInSpecs};

use crate::fault::{RecordFault, RecordsError};
use crate::format::allows;
use crate::reading::{Record, record_in};
use crate::releases::{make_new, unpack_new};
use crate::restoration::restore_on;
use crate::statuses::set_statuses;
use rel_list::{Event, ReleaseList};
use std::alloc::Global;

// Changes the list as a record of a store of this format says, where it may stand after it.
fn take(alloc: Global, format: u8, list: &mut ReleaseList, said: Record) -> Result<(), RecordFault>
    ensures taken { OnOk result
        (assigned_in format (record_read said) list.old ≡ Some list.new) }
    ensures bad { IsErrOf result RecordFault.Bad
        → assigned_in format (record_read said) list.old ≡ None }
{
    if !allows(format, &said) {
        return Err(RecordFault::Bad);
    }
    change(alloc, list, said)?;
    if has_one_permanent(list) {
        Ok(())
    } else {
        Err(RecordFault::Bad)
    }
}

// Changes the list as a record says, where the limits allow it.
fn change(alloc: Global, list: &mut ReleaseList, said: Record) -> Result<(), RecordFault>
    ensures taken { OnOk result (taken_by (record_read said) list.old ≡ Some list.new) }
    ensures bad { IsErrOf result RecordFault.Bad → taken_by (record_read said) list.old ≡ None }
{
    match said {
        Record::Made(new) => make_new(alloc, list, new),
        Record::Unpacked(new) => unpack_new(alloc, list, new),
        Record::Statuses(assignments) => set_statuses(alloc, list, assignments),
        Record::Removed(vsn) => Ok(list.accept(alloc, Event::Removed(vsn))?),
        Record::Image(image) => restore_on(alloc, list, image),
    }
}

// Whether exactly one release of the list is permanent.
fn has_one_permanent(list: &ReleaseList) -> bool
    ensures { result ≡ has_one_permanent list.now }
{
    let releases = list.releases();
    let mut count = 0usize;
    for listed in releases {
        if listed.status.is_permanent() {
            count += 1;
        }
    }
    count == 1
}

// Changes the list as the record of this body says.
fn take_record(
    alloc: Global,
    format: u8,
    list: &mut ReleaseList,
    body: &[u8],
) -> Result<(), RecordFault>
    ensures taken { OnOk result ((r : RecordInSpecs) × Spells body.now r
        × (assigned_in format r list.old ≡ Some list.new)) }
    ensures bad { IsErrOf result RecordFault.Bad → CannotStand format body.now list.old }
{
    match record_in(alloc, body) {
        Ok(said) => take(alloc, format, list, said),
        Err(fault) => Err(fault),
    }
}

/// The list that these records of a store of this format, 1 or 2, make, each taken as what it says of the releases and their
/// statuses. No release of it is current. In a store of format 1 no record writes the status `one_shot`, and in none an
/// image does.
///
/// Refusals: `BadRecord` with the number of the first record that the list so far can't take, and `NoMemory`.
pub fn read_list(
    alloc: Global,
    format: u8,
    records: &[Vec<u8>],
) -> Result<ReleaseList, RecordsError>
    ensures made { IfOk result (Makes format (map (λ v. v.items) records.now)) }
    ensures bad { IfErr result (λ e. (e ≡ RecordsError.NoMemory)
        ⊎ ((i : ℕ) × (e ≡ RecordsError.BadRecord i)
        × IsBadRecord format (map (λ v. v.items) records.now) i)) }
{
    let mut list = ReleaseList::new(alloc);
    for (i, body) in records.iter().enumerate() {
        match take_record(alloc, format, &mut list, body.as_slice()) {
            Ok(()) => {}
            Err(RecordFault::Bad) => return Err(RecordsError::BadRecord(i as u64 + 1)),
            Err(RecordFault::NoMemory) => return Err(RecordsError::NoMemory),
        }
    }
    if list.is_empty() {
        return Err(RecordsError::BadRecord(1));
    }
    Ok(list)
}
