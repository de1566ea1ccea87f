//! The releases of a node as text.
ghost use Rattle.std.specs.Prelude.{◌≡◌, [], ◌∷◌, ◌++◌, map, string_bytes, IfOk, OnOk};
ghost use Rattle.erl_term.specs.Value.{value_of, values_of};
ghost use Rattle.erl_term.specs.Value.Value.{tuple};
ghost use Rattle.rel_files.specs.Release.{application_of};
ghost use Rattle.rel_list.specs.Keyed.{entry_of};
ghost use Rattle.node_listing.specs.Listing.{listing as listing_of, release_line, release_value, application_value};

use crate::line::{push_count, push_term};
use erl_term::Term;
use rel_files::RelApp;
use rel_files::terms::{atom_term, list_term, text_term};
use rel_list::{ListedRelease, ReleaseList};
use std::alloc::{AllocError, Global};

/// A line for each release, in order of coming, and how many there are.
pub fn listing(alloc: Global, releases: &ReleaseList) -> Result<String, AllocError>
    ensures { IfOk result (λ s. string_bytes s ≡ listing_of releases.now) }
{
    let mut text = String::new(alloc);
    let entries = releases.releases();
    for listed in entries {
        push_line(alloc, &mut text, listed)?;
    }
    push_count(alloc, &mut text, releases.len())?;
    Ok(text)
}

/// Puts the line of a release at the end.
fn push_line(alloc: Global, text: &mut String, listed: &ListedRelease) -> Result<(), AllocError>
    ensures { OnOk result
        (string_bytes text.new ≡ string_bytes text.old ++ release_line (entry_of listed.now)) }
{
    let term = release_term(alloc, listed)?;
    push_term(alloc, text, &term)
}

/// A release as it is listed: its name, its version, its applications and its status.
fn release_term(alloc: Global, listed: &ListedRelease) -> Result<Term, AllocError>
    ensures { IfOk result (λ t. value_of t ≡ release_value (entry_of listed.now)) }
{
    let release = &listed.release;
    let name = text_term(alloc, release.name.as_str())?;
    let vsn = text_term(alloc, release.vsn.as_str())?;
    let applications = list_term(application_terms(alloc, release.apps.as_slice())?);
    let status = atom_term(alloc, listed.status.as_str())?;
    tuple_of_four(alloc, name, vsn, applications, status)
}

/// Applications as they are listed.
fn application_terms(alloc: Global, applications: &[RelApp]) -> Result<Vec<Term>, AllocError>
    ensures { IfOk result (λ ts.
        map value_of ts.items ≡ map (λ a. application_value (application_of a)) applications.now) }
{
    let mut terms = Vec::new(alloc);
    for application in applications {
        terms.push(application_term(alloc, application)?)?;
    }
    Ok(terms)
}

/// An application as it is listed: its name, a hyphen and its version.
fn application_term(alloc: Global, application: &RelApp) -> Result<Term, AllocError>
    ensures { IfOk result (λ t. value_of t ≡ application_value (application_of application.now)) }
{
    let name = application.name.as_str();
    let vsn = application.vsn.as_str();
    let text = format!(in alloc; "{name}-{vsn}")?;
    text_term(alloc, text.as_str())
}

fn tuple_of_four(
    alloc: Global,
    first: Term,
    second: Term,
    third: Term,
    fourth: Term,
) -> Result<Term, AllocError>
    ensures { IfOk result (λ t.
        value_of t ≡ tuple (values_of
        (value_of first ∷ value_of second ∷ value_of third ∷ value_of fourth ∷ []))) }
{
    Ok(Term::Tuple(vec![in alloc; first, second, third, fourth]?))
}
