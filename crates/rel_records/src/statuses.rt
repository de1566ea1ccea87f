// A record of statuses may stand where one event writes it.
ghost use Rattle.std.specs.Prelude.{◌≡◌, map, None, Some, IsErrOf, IfOk, OnOk};
ghost use Rattle.rel_records.specs.Given.{are_in_order, leads, others, said, status_given};
ghost use Rattle.rel_records.specs.Lists.{set_by};
ghost use Rattle.rel_records.specs.Parts.{assignment_read};
ghost use Rattle.rel_records.specs.StatusChanges.{statuses_of};

use crate::assignment::{Assignment, assign_all};
use crate::fault::RecordFault;
use crate::status_changes::are_of_one_event;
use rel_list::{ReleaseList, Status};
use std::alloc::{AllocError, Global};

// Gives releases these statuses, where an event says them in the order of the list.
#[tactic(auto, using(crate::proofs::StatusRecords::never_assigned, crate::proofs::StatusRecords::never_follows, crate::proofs::StatusRecords::out_of_order, crate::proofs::StatusRecords::set_taken))]
pub(crate) fn set_statuses(
    alloc: Global,
    list: &mut ReleaseList,
    given: Vec<Assignment>,
) -> Result<(), RecordFault>
    ensures taken { OnOk result
        (set_by (map assignment_read given.items) list.old ≡ Some list.new) }
    ensures bad { IsErrOf result RecordFault.Bad
        → set_by (map assignment_read given.items) list.old ≡ None }
{
    let before = statuses_of(alloc, list)?;
    let said = said_of(alloc, list, given.as_slice())?;
    if !are_of_one_event(before.as_slice(), said.as_slice()) {
        return Err(RecordFault::Bad);
    }
    assign_all(list, given.as_slice())?;
    if are_in_order(list, given) {
        Ok(())
    } else {
        Err(RecordFault::Bad)
    }
}

// The statuses of a list.
fn statuses_of(alloc: Global, list: &ReleaseList) -> Result<Vec<Status>, AllocError>
    ensures { IfOk result (λ v. v.items ≡ statuses_of list.now) }
{
    let releases = list.releases();
    let mut statuses = Vec::with_capacity(alloc, releases.len())?;
    for listed in releases {
        statuses.push(listed.status)?;
    }
    Ok(statuses)
}

// What assignments say of each release of a list.
fn said_of(
    alloc: Global,
    list: &ReleaseList,
    given: &[Assignment],
) -> Result<Vec<Option<Status>>, AllocError>
    ensures { IfOk result (λ v. v.items ≡ said (map assignment_read given.now) list.now) }
{
    let releases = list.releases();
    let mut said = Vec::with_capacity(alloc, releases.len())?;
    for listed in releases {
        said.push(status_given(given, listed.release.vsn.as_str()))?;
    }
    Ok(said)
}

// The status that assignments give to the release of this version: the last one.
#[tactic(auto, using(crate::proofs::StatusRecords::or_later, crate::proofs::StatusRecords::or_none))]
fn status_given(given: &[Assignment], vsn: &str) -> Option<Status>
    ensures { result ≡ status_given vsn.now (map assignment_read given.now) }
{
    let mut status = None;
    for assignment in given {
        if assignment.vsn.as_str() == vsn {
            status = Some(assignment.status);
        }
    }
    status
}

// Whether assignments name releases of the list alone, and first name them in its order.
fn are_in_order(list: &ReleaseList, given: Vec<Assignment>) -> bool
    ensures { result ≡ are_in_order list.now (map assignment_read given.items) }
{
    let mut left = given;
    let releases = list.releases();
    for listed in releases {
        let vsn = listed.release.vsn.as_str();
        if leads(left.as_slice(), vsn) {
            leave_others(&mut left, vsn);
        }
    }
    left.is_empty()
}

// Whether the first assignment is to the release of this version.
fn leads(given: &[Assignment], vsn: &str) -> bool
    ensures { result ≡ leads vsn.now (map assignment_read given.now) }
{
    match given.first() {
        Some(assignment) => assignment.vsn.as_str() == vsn,
        None => false,
    }
}

// Leaves the assignments to other releases.
fn leave_others(given: &mut Vec<Assignment>, vsn: &str)
    ensures { map assignment_read given.new.items
        ≡ others vsn.now (map assignment_read given.old.items) }
{
    given.retain(|assignment| assignment.vsn.as_str() != vsn);
}
