//! The terms by which records carry libraries.
ghost use Rattle.std.specs.Prelude.{◌≡◌, IfOk, List, MatchOption, map};
ghost use Rattle.std.specs.Option.{option_map};
ghost use Rattle.erl_term.specs.Value.{members_of, value_of};
ghost use Rattle.rel_files.specs.AppFile.{Specification, IsAppTerm};
ghost use Rattle.rel_files.specs.AppInMemory.{specification_of};
ghost use Rattle.library.specs.InMemory.{library_of, shared_of, table_term_of};
ghost use Rattle.library.specs.Library.{Library as LibraryInSpecs, library_term, term_parts, tables_there};
ghost use Rattle.library.specs.Reading.{AreOfLibraries, SaysLibrary};

use crate::Library;
use crate::tables::{had_memory, placed_in};
use erl_term::Term;
use mod_table::ModFile;
use rel_files::parts::{is_word, list_in, triple_in};
use rel_files::terms::{atom_term, list_term, triple_term};
use rel_files::{App, app_of_term};
use std::alloc::{AllocError, Global};
use std::rc::Rc;

impl Library {
    /// The term by which a record carries it: `{lib, AppTerm, [ModTerm]}`, the tables in the order of the modules.
    pub fn term(&self, alloc: Global) -> Result<Term, AllocError>
        ensures { IfOk result (λ term. value_of term ≡ library_term (library_of self.now)) }
    {
        let word = atom_term(alloc, "lib")?;
        let whole = self.app.whole.clone()?;
        let tables = list_term(table_terms(alloc, self.tables.as_slice())?);
        triple_term(alloc, word, whole, tables)
    }
}

// The terms of the tables that are there.
fn table_terms(alloc: Global, tables: &[Option<ModFile>]) -> Result<Vec<Term>, AllocError>
    ensures { IfOk result (λ terms. map value_of terms.items
        ≡ map (λ t. t.term) (tables_there (map (λ t. option_map table_term_of t) tables.now))) }
{
    let mut terms = Vec::new(alloc);
    for table in tables {
        if let Some(file) = table {
            terms.push(file.term.clone()?)?;
        }
    }
    Ok(terms)
}

// The term of the application, and those of the tables.
fn parts_in(term: &Term) -> Option<(&Term, &[Term])>
    ensures { option_map (λ p. (value_of p.0.now, members_of p.1.now)) result
        ≡ term_parts (value_of term.now) }
{
    let (word, app, tables) = triple_in(term)?;
    if !is_word(word, "lib") {
        return None;
    }
    Some((app, list_in(tables)?))
}

/// The library of such a term; nothing for a term that is that of none.
pub fn library_of_term(alloc: Global, term: &Term) -> Result<Option<Library>, AllocError>
    ensures { IfOk result (λ library. MatchOption library
        ((l : LibraryInSpecs) → SaysLibrary (value_of term.now) l → ⊥)
        (λ l. SaysLibrary (value_of term.now) (library_of l))) }
{
    let Some((app, tables)) = parts_in(term) else {
        return Ok(None);
    };
    let Some(app) = app_in(alloc, app)? else {
        return Ok(None);
    };
    match placed_in(alloc, app.modules.as_slice(), tables)? {
        Some(tables) => Ok(Some(Library { app, tables })),
        None => Ok(None),
    }
}

/// The libraries of such terms, in their order; nothing where one of them is that of none.
pub fn libraries_of_terms(
    alloc: Global,
    terms: &[Term],
) -> Result<Option<Vec<Rc<Library>>>, AllocError>
    ensures { IfOk result (λ libraries. MatchOption libraries
        ((ls : List LibraryInSpecs) → AreOfLibraries (members_of terms.now) ls → ⊥)
        (λ v. AreOfLibraries (members_of terms.now) (map shared_of v.items))) }
{
    let mut libraries = Vec::with_capacity(alloc, terms.len())?;
    for term in terms {
        let Some(library) = library_of_term(alloc, term)? else {
            return Ok(None);
        };
        libraries.push(Rc::new(alloc, library)?)?;
    }
    Ok(Some(libraries))
}

// The application that a term says.
fn app_in(alloc: Global, term: &Term) -> Result<Option<App>, AllocError>
    ensures { IfOk result (λ app. MatchOption app
        ((a : Specification) → IsAppTerm (value_of term.now) a → ⊥)
        (λ a. IsAppTerm (value_of term.now) (specification_of a))) }
{
    match app_of_term(alloc, term.clone()?, 0) {
        Ok(app) => Ok(Some(app)),
        Err(fault) => {
            had_memory(&fault)?;
            Ok(None)
        }
    }
}
