// Which record a body spells.
ghost use Rattle.std.specs.Prelude.{◌≡◌, None, Some, IsErrOf, IfOk};
ghost use Rattle.std.specs.Option.{option_map, option_and_then};
ghost use Rattle.erl_term.specs.Value.{members_of, value_of};
ghost use Rattle.rel_records.specs.Parts.{parts_in, parts_of, parts_term, record_read};
ghost use Rattle.rel_files.specs.Parts.{list_in};
ghost use Rattle.rel_records.specs.Reading.{assignments_of, change_in, change_of, Says, Spells};
ghost use Rattle.rel_records.specs.Record.{Record as RecordInSpecs, assigns, image_term};

use crate::assignment::{Assignment, assignments_in};
use crate::fault::RecordFault;
use crate::imaged::{Image, all_imaged_in, lists_in};
use crate::new_release::{NewRelease, ReleaseParts, new_release, parts_in};
use crate::words::{MADE, UNPACKED};
use erl_term::{Term, read_record};
use library::libraries_of_terms;
use rel_files::parts::{is_word, list_in, pair_in};
use rel_files::text::version_in;
use std::alloc::{AllocError, Global};

// What a record of a store says.
#[derive(Drop)]
pub(crate) enum Record {
    Made(NewRelease),
    Unpacked(NewRelease),
    Statuses(Vec<Assignment>),
    Removed(String),
    Image(Image),
}

// The record of `{status, Assignments}` or `{removed, Vsn}`.
fn change_of(alloc: Global, word: &Term, value: &Term) -> Result<Option<Record>, AllocError>
    ensures { IfOk result (λ r. option_map record_read r
        ≡ change_of (value_of word.now, value_of value.now)) }
{
    if is_word(word, "status") {
        statuses_in(alloc, value)
    } else if is_word(word, "removed") {
        match version_in(alloc, value)? {
            Some(vsn) => Ok(Some(Record::Removed(vsn))),
            None => Ok(None),
        }
    } else {
        Ok(None)
    }
}

fn statuses_in(alloc: Global, value: &Term) -> Result<Option<Record>, AllocError>
    ensures { IfOk result (λ r. option_map record_read r
        ≡ option_map assigns (option_and_then assignments_of (list_in (value_of value.now)))) }
{
    let Some(items) = list_in(value) else {
        return Ok(None);
    };
    match assignments_in(alloc, items)? {
        Some(all) => Ok(Some(Record::Statuses(all))),
        None => Ok(None),
    }
}

// The record that brings a release.
fn release_record(alloc: Global, parts: ReleaseParts<'_>) -> Result<Record, RecordFault>
    ensures says { IfOk result (λ r. Says (parts_term (parts_of parts.entry)) (record_read r)) }
    ensures bad { IsErrOf result RecordFault.Bad → (r : RecordInSpecs)
        → Says (parts_term (parts_of parts.entry)) r → ⊥ }
{
    let made = parts.word == MADE;
    if !made && parts.word != UNPACKED {
        return Err(RecordFault::Bad);
    }
    let new = new_release(alloc, parts)?;
    if made {
        Ok(Record::Made(new))
    } else {
        Ok(Record::Unpacked(new))
    }
}

// The record that changes the list in place.
fn change_record(alloc: Global, term: &Term) -> Result<Record, RecordFault>
    ensures says { IfOk result (λ r.
        change_in (value_of term.now) ≡ Some (record_read r)) }
    ensures bad { IsErrOf result RecordFault.Bad → change_in (value_of term.now) ≡ None }
{
    let Some((word, value)) = pair_in(term) else {
        return Err(RecordFault::Bad);
    };
    match change_of(alloc, word, value)? {
        Some(record) => Ok(record),
        None => Err(RecordFault::Bad),
    }
}

// The image of these terms of releases and these of libraries.
fn image_record(alloc: Global, rows: &[Term], libs: &[Term]) -> Result<Record, RecordFault>
    ensures says { IfOk result (λ r.
        Says (image_term (members_of rows.now) (members_of libs.now)) (record_read r)) }
    ensures bad { IsErrOf result RecordFault.Bad → (r : RecordInSpecs)
        → Says (image_term (members_of rows.now) (members_of libs.now)) r → ⊥ }
{
    let releases = all_imaged_in(alloc, rows)?;
    match libraries_of_terms(alloc, libs)? {
        Some(libraries) => Ok(Record::Image(Image {
            releases,
            libraries,
        })),
        None => Err(RecordFault::Bad),
    }
}

// The record that brings no release of its own: an image, or one that changes the list in place.
fn list_record(alloc: Global, term: &Term) -> Result<Record, RecordFault>
    ensures says { IfOk result (λ r. Says (value_of term.now) (record_read r)) }
    ensures bad { IsErrOf result RecordFault.Bad → None ≡ parts_in (value_of term.now)
        → (r : RecordInSpecs) → Says (value_of term.now) r → ⊥ }
{
    match lists_in(term) {
        Some((rows, libs)) => image_record(alloc, rows, libs),
        None => change_record(alloc, term),
    }
}

// What the record of this body says.
pub(crate) fn record_in(alloc: Global, body: &[u8]) -> Result<Record, RecordFault>
    ensures spelled { IfOk result (λ r. Spells body.now (record_read r)) }
    ensures bad { IsErrOf result RecordFault.Bad
        → (r : RecordInSpecs) → Spells body.now r → ⊥ }
{
    let term = read_record(alloc, body)?;
    match parts_in(&term) {
        Some(parts) => release_record(alloc, parts),
        None => list_record(alloc, &term),
    }
}
