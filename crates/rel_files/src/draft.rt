//! What a term says of a release, before it is known whether a name stands twice and each version is one.
ghost use Rattle.std.specs.Prelude.{◌≡◌, IfOk, map};
ghost use Rattle.std.specs.Option.{option_map};
ghost use Rattle.erl_term.specs.Value.{members_of, value_of};
ghost use Rattle.rel_files.specs.Release.{application_of, release_of};
ghost use Rattle.rel_files.specs.Sketch.{app_sketch_in, app_sketches_in, sketch_in, app_in, apps_in, release_in};
ghost use Rattle.rel_files.specs.Sketched.{app_sketch_of, sketch_of};

use crate::ending::Ending;
use crate::parts::{app_parts, rel_parts};
use crate::text::{VISIBLE, are_numbers, is_name, text_in};
use crate::{Rel, RelApp, StartType};
use erl_term::Term;
use std::alloc::{AllocError, Global};

// The lowest character of a release's name, which may have blanks.
const BLANK: u8 = b' ';

// An application with its version, if what stands there is one.
pub(crate) struct AppDraft {
    pub(crate) name: String,
    pub(crate) vsn: Option<String>,
    pub(crate) start: StartType,
    pub(crate) included: Option<Vec<String>>,
}

// Let go by one call: a derived drop would stand field by field at each exit of a caller.
impl Drop for AppDraft {
    fn drop(self) {
        let AppDraft {
            name: _name,
            vsn: _vsn,
            start: _start,
            included: _included,
        } = self;
    }
}

impl AppDraft {
    // Nothing for a term of another shape.
    fn read(alloc: Global, term: &Term) -> Result<Option<AppDraft>, AllocError>
        ensures { IfOk result (λ a.
            option_map app_sketch_of a ≡ app_sketch_in (value_of term.now)) }
    {
        let Some(parts) = app_parts(term) else {
            return Ok(None);
        };
        if !is_name(parts.name) || !are_numbers(parts.vsn) {
            return Ok(None);
        }
        let Some(ending) = Ending::read(alloc, parts.ending)? else {
            return Ok(None);
        };
        Ok(Some(AppDraft {
            name: String::from_str(alloc, parts.name)?,
            vsn: text_in(alloc, VISIBLE, parts.vsn)?,
            start: ending.start,
            included: ending.included,
        }))
    }

    // The application, if its version is one.
    fn app(self) -> Option<RelApp>
        ensures { option_map application_of result ≡ app_in (app_sketch_of self) }
    {
        let AppDraft {
            name,
            vsn,
            start,
            included,
        } = self;
        Some(RelApp {
            name,
            vsn: vsn?,
            start,
            included,
        })
    }
}

// A release with its versions, as far as what stands there are some.
pub(crate) struct Draft {
    pub(crate) name: String,
    pub(crate) vsn: Option<String>,
    pub(crate) erts: Option<String>,
    pub(crate) apps: Vec<AppDraft>,
}

// Let go by one call: a derived drop would stand field by field at each exit of a caller.
impl Drop for Draft {
    fn drop(self) {
        let Draft {
            name: _name,
            vsn: _vsn,
            erts: _erts,
            apps: _apps,
        } = self;
    }
}

impl Draft {
    // Nothing for a term of another shape.
    pub(crate) fn read(alloc: Global, term: &Term) -> Result<Option<Draft>, AllocError>
        ensures { IfOk result (λ d. option_map sketch_of d ≡ sketch_in (value_of term.now)) }
    {
        let Some(parts) = rel_parts(term) else {
            return Ok(None);
        };
        if !are_numbers(parts.title.vsn) || !are_numbers(parts.erts) {
            return Ok(None);
        }
        let Some(name) = text_in(alloc, BLANK, parts.title.name)? else {
            return Ok(None);
        };
        let Some(apps) = app_drafts(alloc, parts.apps)? else {
            return Ok(None);
        };
        Ok(Some(Draft {
            name,
            vsn: text_in(alloc, VISIBLE, parts.title.vsn)?,
            erts: text_in(alloc, VISIBLE, parts.erts)?,
            apps,
        }))
    }

    // The release, if each version is one.
    pub(crate) fn release(self, alloc: Global) -> Result<Option<Rel>, AllocError>
        ensures { IfOk result (λ r. option_map release_of r ≡ release_in (sketch_of self)) }
    {
        let Draft {
            name,
            vsn,
            erts,
            apps,
        } = self;
        let Some(vsn) = vsn else {
            return Ok(None);
        };
        let Some(erts) = erts else {
            return Ok(None);
        };
        let Some(apps) = rel_apps(alloc, apps)? else {
            return Ok(None);
        };
        Ok(Some(Rel {
            name,
            vsn,
            erts,
            apps,
        }))
    }
}

fn app_drafts(alloc: Global, terms: &[Term]) -> Result<Option<Vec<AppDraft>>, AllocError>
    ensures { IfOk result (λ o.
        option_map (λ v. map app_sketch_of v.items) o ≡ app_sketches_in (members_of terms.now)) }
{
    let mut apps = Vec::with_capacity(alloc, terms.len())?;
    for term in terms {
        let Some(app) = AppDraft::read(alloc, term)? else {
            return Ok(None);
        };
        apps.push(app)?;
    }
    Ok(Some(apps))
}

fn rel_apps(alloc: Global, drafts: Vec<AppDraft>) -> Result<Option<Vec<RelApp>>, AllocError>
    ensures { IfOk result (λ o.
        option_map (λ v. map application_of v.items) o ≡ apps_in (map app_sketch_of drafts.items)) }
{
    let mut apps = Vec::with_capacity(alloc, drafts.len())?;
    for draft in drafts {
        let Some(app) = draft.app() else {
            return Ok(None);
        };
        apps.push(app)?;
    }
    Ok(Some(apps))
}
