// The term in which an image writes a release.
ghost use Rattle.std.specs.Prelude.{◌≡◌, ◌++◌, map, codes, string_bytes, IfOk, OnOk};
ghost use Rattle.std.specs.Option.{option_map, option_to_list};
ghost use Rattle.erl_term.specs.Value.{value_of};
ghost use Rattle.erl_term.specs.Value.Value.{atom};
ghost use Rattle.rel_files.specs.Release.{application_of, release_of};
ghost use Rattle.rel_files.specs.Terms.{pair_term, text_term};
ghost use Rattle.rel_records.specs.ReleaseTerm.{application_term, file_term, included_members, start_members};

use erl_term::Term;
use rel_files::terms::{atom_term, atoms_term, list_term, pair_term, text_term};
use rel_files::{Rel, RelApp, StartType};
use std::alloc::{AllocError, Global};

// The term of a file that says this release.
pub(crate) fn file_term(alloc: Global, release: &Rel) -> Result<Term, AllocError>
    ensures { IfOk result (λ term. value_of term ≡ file_term (release_of release.now)) }
{
    let word = atom_term(alloc, "release")?;
    let title = title_term(alloc, release)?;
    let erts = erts_term(alloc, release)?;
    let apps = application_terms(alloc, release.apps.as_slice())?;
    Ok(Term::Tuple(vec![in alloc; word, title, erts, list_term(apps)]?))
}

// `{Name, Vsn}`.
fn title_term(alloc: Global, release: &Rel) -> Result<Term, AllocError>
    ensures { IfOk result (λ term. value_of term ≡ pair_term
        (text_term (string_bytes release.now.name)) (text_term (string_bytes release.now.vsn))) }
{
    let name = text_term(alloc, release.name.as_str())?;
    pair_term(alloc, name, text_term(alloc, release.vsn.as_str())?)
}

// `{erts, EVsn}`.
fn erts_term(alloc: Global, release: &Rel) -> Result<Term, AllocError>
    ensures { IfOk result (λ term. value_of term ≡ pair_term (atom (codes "erts"))
        (text_term (string_bytes release.now.erts))) }
{
    let word = atom_term(alloc, "erts")?;
    pair_term(alloc, word, text_term(alloc, release.erts.as_str())?)
}

fn application_terms(alloc: Global, apps: &[RelApp]) -> Result<Vec<Term>, AllocError>
    ensures { IfOk result (λ terms. map value_of terms.items
        ≡ map application_term (map application_of apps.now)) }
{
    let mut terms = Vec::with_capacity(alloc, apps.len())?;
    for app in apps {
        terms.push(application_term(alloc, app)?)?;
    }
    Ok(terms)
}

// The term of an application, without what may be left out.
fn application_term(alloc: Global, app: &RelApp) -> Result<Term, AllocError>
    ensures { IfOk result (λ term. value_of term ≡ application_term (application_of app.now)) }
{
    let name = atom_term(alloc, app.name.as_str())?;
    let vsn = text_term(alloc, app.vsn.as_str())?;
    let start = start_term(alloc, app.start)?;
    let included = included_term(alloc, &app.included)?;
    let mut members = vec![in alloc; name, vsn]?;
    push_some(&mut members, start)?;
    push_some(&mut members, included)?;
    Ok(Term::Tuple(members))
}

// The term of a start type, if it is to be written.
fn start_term(alloc: Global, start: StartType) -> Result<Option<Term>, AllocError>
    ensures { IfOk result (λ o. map value_of (option_to_list o) ≡ start_members start) }
{
    match start {
        StartType::Permanent => Ok(None),
        StartType::Transient => Ok(Some(atom_term(alloc, "transient")?)),
        StartType::Temporary => Ok(Some(atom_term(alloc, "temporary")?)),
        StartType::Load => Ok(Some(atom_term(alloc, "load")?)),
        StartType::Unloaded => Ok(Some(atom_term(alloc, "none")?)),
    }
}

// The term of the included applications, if they are to be written.
fn included_term(alloc: Global, included: &Option<Vec<String>>) -> Result<Option<Term>, AllocError>
    ensures { IfOk result (λ o. map value_of (option_to_list o)
        ≡ included_members (option_map (λ v. map string_bytes v.items) included.now)) }
{
    match included {
        Some(names) => Ok(Some(atoms_term(alloc, names.as_slice())?)),
        None => Ok(None),
    }
}

// Adds a term, if there is one.
fn push_some(terms: &mut Vec<Term>, term: Option<Term>) -> Result<(), AllocError>
    ensures { OnOk result (terms.new.items ≡ terms.old.items ++ option_to_list term) }
{
    match term {
        Some(term) => Ok(terms.push(term)?),
        None => Ok(()),
    }
}
