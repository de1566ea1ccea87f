// The releases of an image.
ghost use Rattle.std.specs.Prelude.{◌≡◌, List, map, Some, IsErrOf, IfOk};
ghost use Rattle.std.specs.Option.{option_map};
ghost use Rattle.erl_term.specs.Value.{members_of, value_of};
ghost use Rattle.rel_files.specs.Parts.{triple_in};
ghost use Rattle.rel_records.specs.Parts.{imaged_read, lists_in, lists_of};
ghost use Rattle.rel_records.specs.Reading.{AreImaged, SaysImaged};
ghost use Rattle.rel_records.specs.Record.{Imaged as ImagedInSpecs};

use crate::assignment::status_in;
use crate::fault::RecordFault;
use crate::new_release::relup_in;
use crate::words::IMAGE;
use erl_term::Term;
use library::Library;
use rel_files::parts::{is_word, list_in, triple_in};
use rel_files::{Rel, rel_of_term};
use rel_list::Status;
use relup_file::Relup;
use std::alloc::Global;
use std::rc::Rc;

// A release of an image, with its status and its relup, if it has one.
#[derive(Drop)]
pub(crate) struct Imaged {
    pub(crate) release: Rel,
    pub(crate) status: Status,
    pub(crate) relup: Option<Relup>,
}

// The releases of a list, and its libraries in order of first mention.
#[derive(Drop)]
pub(crate) struct Image {
    pub(crate) releases: Vec<Imaged>,
    pub(crate) libraries: Vec<Rc<Library>>,
}

// The terms of the releases and of the libraries of `{image, Releases, Libs}`.
pub(crate) fn lists_in(term: &Term) -> Option<(&[Term], &[Term])>
    ensures { option_map (λ p. (members_of p.0.now, members_of p.1.now)) result
        ≡ lists_in (value_of term.now) }
{
    let (word, rows, libs) = triple_in(term)?;
    lists_of(word, rows, libs)
}

fn lists_of<'a>(word: &Term, rows: &'a Term, libs: &'a Term) -> Option<(&'a [Term], &'a [Term])>
    ensures { option_map (λ p. (members_of p.0.now, members_of p.1.now)) result
        ≡ lists_of (value_of word.now, value_of rows.now, value_of libs.now) }
{
    if !is_word(word, IMAGE) {
        return None;
    }
    Some((list_in(rows)?, list_in(libs)?))
}

// What `{Rel, Status, Relup}` says.
fn imaged_in(alloc: Global, term: &Term) -> Result<Imaged, RecordFault>
    ensures says { IfOk result (λ x. SaysImaged (value_of term.now) (imaged_read x)) }
    ensures bad { IsErrOf result RecordFault.Bad
        → (x : ImagedInSpecs) → SaysImaged (value_of term.now) x → ⊥ }
{
    let Some((rel, status, relup)) = triple_in(term) else {
        return Err(RecordFault::Bad);
    };
    let Some(status) = status_in(status) else {
        return Err(RecordFault::Bad);
    };
    let release = rel_of_term(alloc, rel, 0)?;
    let relup = relup_in(alloc, relup)?;
    Ok(Imaged {
        release,
        status,
        relup,
    })
}

// What a list of such terms says, in order.
pub(crate) fn all_imaged_in(alloc: Global, terms: &[Term]) -> Result<Vec<Imaged>, RecordFault>
    ensures says { IfOk result (λ v.
        AreImaged (members_of terms.now) (map imaged_read v.items)) }
    ensures bad { IsErrOf result RecordFault.Bad
        → (xs : List ImagedInSpecs) → AreImaged (members_of terms.now) xs → ⊥ }
{
    let mut releases = Vec::with_capacity(alloc, terms.len())?;
    for term in terms {
        let imaged = imaged_in(alloc, term)?;
        releases.push(imaged)?;
    }
    Ok(releases)
}
