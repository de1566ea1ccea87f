// Statuses as a record assigns them.
ghost use Rattle.std.specs.Prelude.{◌≡◌, map, None, Some, IfOk, IfErr, OnOk};
ghost use Rattle.std.specs.Option.{option_map};
ghost use Rattle.erl_term.specs.Value.{value_of, members_of};
ghost use Rattle.rel_files.specs.Sketch.{version_in};
ghost use Rattle.rel_records.specs.Lists.{assign_all};
ghost use Rattle.rel_records.specs.Parts.{assignment_read};
ghost use Rattle.rel_records.specs.Reading.{status_in, assignment_in, assignments_of};

use crate::fault::RecordFault;
use erl_term::Term;
use rel_files::parts::{is_word, pair_in};
use rel_files::text::version_in;
use rel_list::{ReleaseList, Status};
use std::alloc::{AllocError, Global};

// The release of this version gets this status.
#[derive(Drop)]
pub(crate) struct Assignment {
    pub(crate) vsn: String,
    pub(crate) status: Status,
}

// A status that is written: `current` never is.
pub(crate) fn status_in(term: &Term) -> Option<Status>
    ensures { result ≡ status_in (value_of term.now) }
{
    if is_word(term, "unpacked") {
        Some(Status::Unpacked)
    } else if is_word(term, "old") {
        Some(Status::Old)
    } else if is_word(term, "permanent") {
        Some(Status::Permanent)
    } else if is_word(term, "one_shot") {
        Some(Status::OneShot)
    } else {
        None
    }
}

// What `{Vsn, Status}` assigns.
fn assignment_in(alloc: Global, term: &Term) -> Result<Option<Assignment>, AllocError>
    ensures { IfOk result (λ a. option_map assignment_read a ≡ assignment_in (value_of term.now)) }
{
    let Some((vsn, status)) = pair_in(term) else {
        return Ok(None);
    };
    let Some(vsn) = version_in(alloc, vsn)? else {
        return Ok(None);
    };
    let Some(status) = status_in(status) else {
        return Ok(None);
    };
    Ok(Some(Assignment { vsn, status }))
}

// What a list of such pairs assigns, in order.
pub(crate) fn assignments_in(
    alloc: Global,
    items: &[Term],
) -> Result<Option<Vec<Assignment>>, AllocError>
    ensures { IfOk result (λ all. option_map (λ v. map assignment_read v.items) all
        ≡ assignments_of (members_of items.now)) }
{
    let mut all = Vec::with_capacity(alloc, items.len())?;
    for item in items {
        let Some(assignment) = assignment_in(alloc, item)? else {
            return Ok(None);
        };
        all.push(assignment)?;
    }
    Ok(Some(all))
}

// Gives these releases these statuses, one after another.
pub(crate) fn assign_all(
    list: &mut ReleaseList,
    assignments: &[Assignment],
) -> Result<(), RecordFault>
    ensures assigned { OnOk result
        (assign_all (map assignment_read assignments.now) list.old ≡ Some list.new) }
    ensures bad { IfErr result (λ _.
        assign_all (map assignment_read assignments.now) list.old ≡ None) }
{
    for assignment in assignments {
        if !list.assign(assignment.vsn.as_str(), assignment.status) {
            return Err(RecordFault::Bad);
        }
    }
    Ok(())
}
