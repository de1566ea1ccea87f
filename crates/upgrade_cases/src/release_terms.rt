//! Releases as terms: `{Vsn, Erts, [{Name, Vsn, Type, {Modules, Appup}}]}`, where the appup can be `none`. A list, a version, or a
//! word of another shape counts as an empty one, and any other type as `permanent`.
use appup_file::{AppupFault, appup_of_term};
use erl_term::Term;
use rel_files::parts::{four_in, list_in, pair_in, triple_in, word_in};
use rel_files::text::{names_in, version_in};
use rel_files::{StartType, start_of};
use relup_translate::{ModuleNames, RelupApp, RelupRelease};
use std::alloc::{AllocError, Global};

/// What a term can say.
pub(crate) trait OfTerm {
    fn of_term(alloc: Global, term: &Term) -> Result<Self, AppupFault>;
}

/// What the terms of a list say.
pub(crate) fn all_in<T: OfTerm + Drop>(alloc: Global, term: &Term) -> Result<Vec<T>, AppupFault> {
    let mut all = Vec::new(alloc);
    for item in list_in(term).unwrap_or(&[]) {
        all.push(T::of_term(alloc, item)?)?;
    }
    Ok(all)
}

impl OfTerm for RelupRelease {
    fn of_term(alloc: Global, term: &Term) -> Result<RelupRelease, AppupFault> {
        let Some((vsn, erts, apps)) = triple_in(term) else {
            return Err(AppupFault::BadShape);
        };
        Ok(RelupRelease {
            vsn: version(alloc, vsn)?,
            erts: version(alloc, erts)?,
            apps: all_in(alloc, apps)?,
        })
    }
}

impl OfTerm for RelupApp {
    fn of_term(alloc: Global, term: &Term) -> Result<RelupApp, AppupFault> {
        let Some((name, vsn, start, files)) = four_in(term) else {
            return Err(AppupFault::BadShape);
        };
        let Some((modules, appup)) = pair_in(files) else {
            return Err(AppupFault::BadShape);
        };
        Ok(RelupApp {
            name: String::from_str(alloc, word_in(name).unwrap_or(""))?,
            vsn: version(alloc, vsn)?,
            start: start_of(word_in(start).unwrap_or("")).unwrap_or(StartType::Permanent),
            modules: module_names(alloc, modules)?,
            appup: appup_of_term(alloc, appup).ok(),
        })
    }
}

fn version(alloc: Global, term: &Term) -> Result<String, AllocError> {
    Ok(version_in(alloc, term)?.unwrap_or(String::new(alloc)))
}

fn module_names(alloc: Global, term: &Term) -> Result<ModuleNames, AllocError> {
    ModuleNames::new(alloc, names_in(alloc, term)?.unwrap_or(Vec::new(alloc)))
}
