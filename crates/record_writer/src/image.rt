// The image of a list: the one record that makes it.
ghost use Rattle.std.specs.Prelude.{◌≡◌, map, string_bytes, IfOk};
ghost use Rattle.std.specs.Option.{option_map, ForSome};
ghost use Rattle.erl_term.specs.Value.{members_of, value_of};
ghost use Rattle.library.specs.Library.{library_term};
ghost use Rattle.rel_list.specs.Event.{recorded};
ghost use Rattle.rel_list.specs.Keyed.{entry_of};
ghost use Rattle.rel_list.specs.Releases.{libraries_of};
ghost use Rattle.relup_file.specs.Form.{relup_term};
ghost use Rattle.relup_file.specs.Relup.{relup_of};
ghost use Rattle.rel_records.specs.Image.{MakesAsImage, recorded_row, image_of, imaged};
ghost use Rattle.rel_records.specs.Lists.{IsMadeByRecords};
ghost use Rattle.rel_records.specs.Record.{image_term, imaged_term, relup_or_none};

use crate::depth::can_be_read_back;
use crate::release_term::file_term;
use crate::writing::body_of;
use erl_term::{RECORD_DEPTH, Term};
use rel_files::terms::{atom_term, list_term, triple_term};
use rel_list::{ListedRelease, ReleaseList};
use rel_records::IMAGE;
use relup_file::{Relup, relup_term};
use std::alloc::{AllocError, Global};

/// The body of the image of this list: a record that makes it alone, as records report it. Nothing where that couldn't be
/// read back: a relup may hold a term that is too deep.
pub fn image_body(alloc: Global, list: &ReleaseList) -> Result<Option<String>, AllocError>
    requires made { IsMadeByRecords (recorded list.now) }
    ensures body { IfOk result (λ o. option_map string_bytes o ≡ image_of (recorded list.now)) }

    // The body makes the list, whatever bodies made that before, in a store of each format that may have it.
    ensures makes { IfOk result (λ o. ForSome o
        (λ body. MakesAsImage (recorded list.now) (string_bytes body))) }
{
    let rows = row_terms(alloc, list.releases())?;
    let libs = library_terms(alloc, list)?;
    let term = image_term(alloc, rows, libs)?;
    if !can_be_read_back(&term, RECORD_DEPTH) {
        return Ok(None);
    }
    let body = body_of(alloc, &term)?;
    Ok(Some(body))
}

// The term of an image of these terms of releases and these of libraries.
fn image_term(alloc: Global, rows: Vec<Term>, libs: Vec<Term>) -> Result<Term, AllocError>
    ensures { IfOk result (λ term. value_of term
        ≡ image_term (members_of rows.items) (members_of libs.items)) }
{
    let word = atom_term(alloc, IMAGE)?;
    triple_term(alloc, word, list_term(rows), list_term(libs))
}

// The terms of releases with their statuses, as records report them.
fn row_terms(alloc: Global, releases: &[ListedRelease]) -> Result<Vec<Term>, AllocError>
    ensures { IfOk result (λ terms. map value_of terms.items
        ≡ map imaged_term (map imaged (recorded (map entry_of releases.now)))) }
{
    let mut terms = Vec::with_capacity(alloc, releases.len())?;
    for listed in releases {
        terms.push(row_term(alloc, listed)?)?;
    }
    Ok(terms)
}

fn row_term(alloc: Global, listed: &ListedRelease) -> Result<Term, AllocError>
    ensures { IfOk result (λ term. value_of term ≡ recorded_row (entry_of listed.now)) }
{
    let rel = file_term(alloc, &listed.release)?;
    let status = atom_term(alloc, listed.status.recorded().as_str())?;
    let relup = relup_or_none(alloc, &listed.relup)?;
    triple_term(alloc, rel, status, relup)
}

// The term that stands for a relup, or for none.
fn relup_or_none(alloc: Global, relup: &Option<Relup>) -> Result<Term, AllocError>
    ensures { IfOk result (λ term. value_of term
        ≡ relup_or_none (option_map relup_term (option_map relup_of relup.now))) }
{
    match relup {
        Some(relup) => relup_term(alloc, relup),
        None => atom_term(alloc, "none"),
    }
}

// The terms of the libraries of a list.
fn library_terms(alloc: Global, list: &ReleaseList) -> Result<Vec<Term>, AllocError>
    ensures { IfOk result (λ terms. map value_of terms.items
        ≡ map library_term (libraries_of list.now)) }
{
    let named = list.libs(alloc)?;
    let libraries = named.as_slice();
    let mut terms = Vec::with_capacity(alloc, libraries.len())?;
    for library in libraries {
        terms.push(library.term(alloc)?)?;
    }
    Ok(terms)
}
