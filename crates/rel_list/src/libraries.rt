//! The libraries of a list.
//!
//! With each release the list keeps the libraries of its applications. A release is refused of which a library differs from the
//! list's of the same name and version (`first_different` finds it). For one that fits, `share` puts the list's own libraries in
//! place of those that it has already, so that the terms of a library are in memory once; clauses speak of the values alone.
//! `libs` gives each library once. A library leaves the list with the last release that names it.
ghost use Rattle.std.specs.Prelude.{◌≡◌, List, ◌++◌, map, is_some, IfOk, OnOk};
ghost use Rattle.std.specs.Option.{option_map, unwrap_or};
ghost use Rattle.library.specs.InMemory.{library_of, shared_of};
ghost use Rattle.library.specs.Library.{Library as LibraryInSpecs, library_at};
ghost use Rattle.rel_list.specs.Releases.{differs, each_once, first_different, library_in, libraries_of, shared};

use crate::{ListedRelease, ReleaseList};
use library::Library;
use std::alloc::{AllocError, Global};
use std::rc::Rc;

impl ReleaseList {
    /// The library of this name and this version. It is lent, and whoever keeps it clones the `Rc`.
    pub fn library(&self, name: &str, vsn: &str) -> Option<&Rc<Library>>
        ensures { option_map (λ l. shared_of l.now) result ≡ library_in self.now name.now vsn.now }
    {
        let releases = self.releases();
        for listed in releases {
            if let Some(found) = library_at(listed.libraries.as_slice(), name, vsn) {
                return Some(found);
            }
        }
        None
    }

    /// The first of these libraries of which the list has one of the same name and version with another specification or
    /// other tables.
    pub fn first_different<'a>(&self, libraries: &'a [Rc<Library>]) -> Option<&'a Library>
        ensures { option_map (λ l. library_of l.now) result
            ≡ first_different self.now (map shared_of libraries.now) }
    {
        for library in libraries {
            if self.differs(library.as_ref()) {
                return Some(library.as_ref());
            }
        }
        None
    }

    /// The libraries of the list, each once, in order of first mention. A library is among them as long as a release names it.
    ///
    /// Takes memory for the references alone.
    pub fn libs(&self, alloc: Global) -> Result<Vec<&Library>, AllocError>
        ensures { IfOk result (λ v. map (λ l. library_of l.now) v.items ≡ libraries_of self.now) }
    {
        let mut found = Vec::new(alloc);
        let releases = self.releases();
        for listed in releases {
            push_new(&mut found, listed.libraries.as_slice())?;
        }
        Ok(found)
    }

    /// The libraries of a release that the list is to take, with the list's own in place of those that it has: a library's
    /// terms are kept once. A library that differs from the list's is replaced too: ask `first_different` before.
    pub fn share(
        &self,
        alloc: Global,
        libraries: Vec<Rc<Library>>,
    ) -> Result<Vec<Rc<Library>>, AllocError>
        ensures { IfOk result (λ v. map shared_of v.items
            ≡ shared self.now (map shared_of libraries.items)) }
    {
        let mut all = Vec::with_capacity(alloc, libraries.len())?;
        for library in libraries {
            all.push(self.own_or(library)?)?;
        }
        Ok(all)
    }

    // The list's library in place of this one, where it has one.
    fn own_or(&self, library: Rc<Library>) -> Result<Rc<Library>, AllocError>
        ensures { IfOk result (λ rc. shared_of rc ≡ unwrap_or (library_in self.now
            (shared_of library).app.name (shared_of library).app.vsn) (shared_of library)) }
    {
        match self.library(
            library.as_ref().app.name.as_str(),
            library.as_ref().app.vsn.as_str(),
        ) {
            Some(own) => own.clone(),
            None => Ok(library),
        }
    }

    // Whether the list has a library of its name and version that is not the same.
    fn differs(&self, library: &Library) -> bool
        ensures { result ≡ differs self.now (library_of library.now) }
    {
        match self.library(library.app.name.as_str(), library.app.vsn.as_str()) {
            Some(listed) => !listed.as_ref().is_same(library),
            None => false,
        }
    }
}

// Adds those of these libraries that aren't among the found ones yet.
fn push_new<'a>(
    found: &mut Vec<&'a Library>,
    libraries: &'a [Rc<Library>],
) -> Result<(), AllocError>
    ensures { OnOk result ((ls : List LibraryInSpecs)
        → map (λ l. library_of l.now) found.old.items ≡ each_once ls
        → map (λ l. library_of l.now) found.new.items
        ≡ each_once (ls ++ map shared_of libraries.now)) }
{
    for library in libraries {
        let library = library.as_ref();
        if !is_among(found.as_slice(), library) {
            found.push(library)?;
        }
    }
    Ok(())
}

// Whether one of them has its name and its version.
fn is_among(found: &[&Library], library: &Library) -> bool
    ensures { result ≡ is_some (library_at (library_of library.now).app.name
        (library_of library.now).app.vsn (map (λ l. library_of l.now) found.now)) }
{
    for other in found {
        if other.is_at(library.app.name.as_str(), library.app.vsn.as_str()) {
            return true;
        }
    }
    false
}

// The first library of this name and this version.
fn library_at<'a>(libraries: &'a [Rc<Library>], name: &str, vsn: &str) -> Option<&'a Rc<Library>>
    ensures { option_map (λ l. shared_of l.now) result
        ≡ library_at name.now vsn.now (map shared_of libraries.now) }
{
    for library in libraries {
        if library.as_ref().is_at(name, vsn) {
            return Some(library);
        }
    }
    None
}
