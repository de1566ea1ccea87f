// The bodies of the records that commands write.
ghost use Rattle.std.specs.Prelude.{◌≡◌, codes, map, string_bytes, Option, None, IfOk, OnOk};
ghost use Rattle.std.specs.Option.{option_map, ForSome};
ghost use Rattle.erl_term.specs.OneTerm.{HasTerm};
ghost use Rattle.erl_term.specs.Value.{members_of, value_of};
ghost use Rattle.erl_term.specs.Value.Value.{atom};
ghost use Rattle.erl_term.specs.Within.{IsWithin};
ghost use Rattle.rel_files.specs.Release.{Release};
ghost use Rattle.relup_file.specs.Relup.{RelupForm};
ghost use Rattle.library.specs.InMemory.{shared_of};
ghost use Rattle.library.specs.Library.{library_term};
ghost use Rattle.rel_files.specs.Terms.{list_of, pair_term};
ghost use Rattle.rel_list.specs.Event.{event_of, list_restarted};
ghost use Rattle.rel_list.specs.Event.Event.{boot};
ghost use Rattle.rel_list.specs.Keyed.{entry_of};
ghost use Rattle.rel_list.specs.Refusal.{refusal};
ghost use Rattle.rel_records.specs.Lists.{HaveVersions};
ghost use Rattle.rel_records.specs.Parts.{files_of};
ghost use Rattle.rel_records.specs.Reading.{AreOfRelease, Spells};
ghost use Rattle.rel_records.specs.Record.{FileTerms, makes, adds, release_term, relup_or_none, assignment_term, term_of, body_of, printed};
ghost use Rattle.rel_records.specs.Writing.{changes, new_libraries, record_of, CanBeCarried, IsOfListed, Reports};

use erl_term::{Term, print};
use library::Library;
use rel_files::terms::{atom_term, list_term, pair_term, text_term};
use rel_list::{Event, ListedRelease, ReleaseList, Status};
use rel_records::{MADE, UNPACKED};
use std::alloc::{AllocError, Global};
use std::rc::Rc;

/// The body of the record that makes a node with a release: the term of its file, the libraries of its applications, and the
/// term of its relup's file, if it has one.
pub fn made_body(
    alloc: Global,
    rel: Term,
    libraries: &[Rc<Library>],
    relup: Option<Term>,
) -> Result<String, AllocError>
    requires rel { IsWithin 65 (value_of rel) }
    requires libraries { CanBeCarried (map shared_of libraries.now) }
    requires relup { ForSome relup (λ term. IsWithin 65 (value_of term)) }
    ensures body { IfOk result (λ body. (r : Release) → (o : Option RelupForm)
        → string_bytes body
        ≡ body_of (files_of rel relup) (makes r (map shared_of libraries.now) o)) }
    ensures spells { IfOk result (λ body. (r : Release) → (o : Option RelupForm)
        → AreOfRelease (files_of rel relup) r o
        → Spells (string_bytes body) (makes r (map shared_of libraries.now) o)) }
{
    let libs = library_terms(alloc, libraries)?;
    let relup = relup_or_none(alloc, relup)?;
    let term = release_term(alloc, MADE, rel, libs, relup)?;
    body_of(alloc, &term)
}

/// The body of the record that brings a further release to this list: the term of its file, the libraries of its
/// applications, and the term of its relup's file, if it has one. It carries those libraries that the list doesn't have.
pub fn unpacked_body(
    alloc: Global,
    list: &ReleaseList,
    rel: Term,
    libraries: &[Rc<Library>],
    relup: Option<Term>,
) -> Result<String, AllocError>
    requires rel { IsWithin 65 (value_of rel) }
    requires libraries { CanBeCarried (map shared_of libraries.now) }
    requires relup { ForSome relup (λ term. IsWithin 65 (value_of term)) }
    ensures body { IfOk result (λ body. (r : Release) → (o : Option RelupForm)
        → string_bytes body ≡ body_of (files_of rel relup)
        (adds r (new_libraries list.now (map shared_of libraries.now)) o)) }
    ensures spells { IfOk result (λ body. (r : Release) → (o : Option RelupForm)
        → AreOfRelease (files_of rel relup) r o → Spells (string_bytes body)
        (adds r (new_libraries list.now (map shared_of libraries.now)) o)) }
{
    let libs = new_library_terms(alloc, list, libraries)?;
    let relup = relup_or_none(alloc, relup)?;
    let term = release_term(alloc, UNPACKED, rel, libs, relup)?;
    body_of(alloc, &term)
}

/// The body of the record of an event that changes this list and brings no release.
pub fn change_body(alloc: Global, list: &ReleaseList, event: &Event) -> Result<String, AllocError>
    requires listed { IsOfListed (event_of event.now) }
    requires allowed { refusal (event_of event.now) list.now ≡ None }
    requires versions { HaveVersions list.now }
    ensures body { IfOk result (λ body. (files : FileTerms)
        → string_bytes body ≡ body_of files (record_of (event_of event.now) list.now)) }
    ensures spells { IfOk result (λ body.
        Spells (string_bytes body) (record_of (event_of event.now) list.now)) }

    // What a boot makes of the record is what the event makes of the list.
    ensures reports { OnOk result (Reports (event_of event.now) list.now) }
{
    let releases = list.releases();
    let term = change_term(alloc, releases, event)?;
    body_of(alloc, &term)
}

/// The body of the record of the boot after an installation of this version by a script that ends with a restart.
pub fn boot_body_behind_restart(
    alloc: Global,
    list: &ReleaseList,
    vsn: &str,
) -> Result<String, AllocError>
    ensures { IfOk result (λ body. (files : FileTerms) → string_bytes body
        ≡ body_of files (record_of boot (list_restarted vsn.now list.now))) }
{
    let statuses = boot_terms(alloc, list.releases(), vsn)?;
    let term = status_term(alloc, statuses)?;
    body_of(alloc, &term)
}

// The printed term and a dot.
pub(crate) fn body_of(alloc: Global, term: &Term) -> Result<String, AllocError>
    ensures printed { IfOk result (λ body. string_bytes body ≡ printed (value_of term.now)) }
    ensures read_back { IsWithin 72 (value_of term.now)
        → IfOk result (λ body. HasTerm 72 (string_bytes body) (value_of term.now)) }
{
    let mut body = print(alloc, term)?;
    body.push_str(".")?;
    Ok(body)
}

// The term of the record that brings a release, of these terms.
fn release_term(
    alloc: Global,
    word: &str,
    rel: Term,
    libs: Vec<Term>,
    relup: Term,
) -> Result<Term, AllocError>
    ensures { IfOk result (λ term. value_of term
        ≡ release_term word.now (value_of rel) (members_of libs.items) (value_of relup)) }
{
    let word = atom_term(alloc, word)?;
    Ok(Term::Tuple(vec![in alloc; word, rel, Term::List(libs), relup]?))
}

// The term that stands for a relup of this term, or for none.
fn relup_or_none(alloc: Global, relup: Option<Term>) -> Result<Term, AllocError>
    ensures { IfOk result (λ term. value_of term ≡ relup_or_none (option_map value_of relup)) }
{
    match relup {
        Some(term) => Ok(term),
        None => atom_term(alloc, "none"),
    }
}

// The terms of libraries.
fn library_terms(alloc: Global, libraries: &[Rc<Library>]) -> Result<Vec<Term>, AllocError>
    ensures { IfOk result (λ terms. map value_of terms.items
        ≡ map library_term (map shared_of libraries.now)) }
{
    let mut terms = Vec::with_capacity(alloc, libraries.len())?;
    for library in libraries {
        terms.push(library.as_ref().term(alloc)?)?;
    }
    Ok(terms)
}

// The terms of those that the list doesn't have.
fn new_library_terms(
    alloc: Global,
    list: &ReleaseList,
    libraries: &[Rc<Library>],
) -> Result<Vec<Term>, AllocError>
    ensures { IfOk result (λ terms. map value_of terms.items
        ≡ map library_term (new_libraries list.now (map shared_of libraries.now))) }
{
    let mut terms = Vec::new(alloc);
    for library in libraries {
        let app = &library.as_ref().app;
        if list.library(app.name.as_str(), app.vsn.as_str()).is_none() {
            terms.push(library.as_ref().term(alloc)?)?;
        }
    }
    Ok(terms)
}

// The term of the record of an event.
fn change_term(alloc: Global, releases: &[ListedRelease], event: &Event) -> Result<Term, AllocError>
    requires { IsOfListed (event_of event.now) }
    ensures { IfOk result (λ term. (files : FileTerms) → value_of term
        ≡ term_of files (record_of (event_of event.now) (map entry_of releases.now))) }
{
    if let Event::Removed(vsn) = event {
        let vsn = text_term(alloc, vsn.as_str())?;
        return pair_term(alloc, atom_term(alloc, "removed")?, vsn);
    }
    let statuses = assignment_terms(alloc, releases, event)?;
    status_term(alloc, statuses)
}

// The term of a record of these statuses.
fn status_term(alloc: Global, statuses: Vec<Term>) -> Result<Term, AllocError>
    ensures { IfOk result (λ term. value_of term
        ≡ pair_term (atom (codes "status")) (list_of (map value_of statuses.items))) }
{
    pair_term(alloc, atom_term(alloc, "status")?, list_term(statuses))
}

// The statuses that the event changes, in the order of the list.
fn assignment_terms(
    alloc: Global,
    releases: &[ListedRelease],
    event: &Event,
) -> Result<Vec<Term>, AllocError>
    ensures { IfOk result (λ terms. map value_of terms.items
        ≡ map assignment_term (changes (event_of event.now) (map entry_of releases.now))) }
{
    let mut terms = Vec::new(alloc);
    for listed in releases {
        let status = event.status_behind(listed.release.vsn.as_str(), listed.status);
        if status != listed.status {
            terms.push(assignment_term(alloc, listed, status.recorded())?)?;
        }
    }
    Ok(terms)
}

// The statuses that a boot changes after a restart for this version, in the order of the list.
fn boot_terms(alloc: Global, releases: &[ListedRelease], vsn: &str) -> Result<Vec<Term>, AllocError>
    ensures { IfOk result (λ terms. map value_of terms.items
        ≡ map assignment_term (changes boot (list_restarted vsn.now (map entry_of releases.now)))) }
{
    let mut terms = Vec::new(alloc);
    for listed in releases {
        let status = listed.status.restarted(vsn == listed.release.vsn.as_str());
        if status.booted() != status {
            terms.push(assignment_term(alloc, listed, status.booted().recorded())?)?;
        }
    }
    Ok(terms)
}

// A release with this status.
fn assignment_term(
    alloc: Global,
    listed: &ListedRelease,
    status: Status,
) -> Result<Term, AllocError>
    ensures { IfOk result (λ term. value_of term ≡ assignment_term
        (record { vsn = string_bytes listed.now.release.vsn; status = status })) }
{
    let vsn = text_term(alloc, listed.release.vsn.as_str())?;
    pair_term(alloc, vsn, atom_term(alloc, status.as_str())?)
}
