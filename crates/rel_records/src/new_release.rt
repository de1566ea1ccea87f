// The release that a record brings.
ghost use Rattle.std.specs.Prelude.{◌≡◌, List, Option, IsErrOf, IfOk};
ghost use Rattle.std.specs.Option.{option_map};
ghost use Rattle.erl_term.specs.Value.{value_of};
ghost use Rattle.library.specs.Library.{Library as LibraryInSpecs};
ghost use Rattle.rel_files.specs.Parts.{word_in};
ghost use Rattle.rel_files.specs.Release.{Release};
ghost use Rattle.relup_file.specs.Relup.{RelupForm, relup_of};
ghost use Rattle.rel_records.specs.Parts.{BringsNew, parts_in, parts_of, parts_term};
ghost use Rattle.rel_records.specs.Reading.{Brings, StandsForRelup};

use crate::fault::RecordFault;
use erl_term::Term;
use library::{Library, libraries_of_terms};
use rel_files::parts::{four_in, is_word, list_in, word_in};
use rel_files::{Rel, rel_of_term};
use relup_file::{Relup, relup_of_term};
use std::alloc::Global;
use std::rc::Rc;

// A release that comes in, with the libraries that are new with it and its relup, if it has one.
#[derive(Drop)]
pub(crate) struct NewRelease {
    pub(crate) release: Rel,
    pub(crate) libraries: Vec<Rc<Library>>,
    pub(crate) relup: Option<Relup>,
}

// What a record that brings a release is made of.
#[derive(Clone, Copy)]
pub(crate) struct ReleaseParts<'a> {
    pub(crate) word: &'a str,
    rel: &'a Term,
    libs: &'a [Term],
    relup: &'a Term,
}

pub(crate) fn parts_in(term: &Term) -> Option<ReleaseParts<'_>>
    ensures { option_map parts_of result ≡ parts_in (value_of term.now) }
{
    let (word, rel, libs, relup) = four_in(term)?;
    Some(ReleaseParts {
        word: word_in(word)?,
        rel,
        libs: list_in(libs)?,
        relup,
    })
}

// The relup that a term stands for.
pub(crate) fn relup_in(alloc: Global, term: &Term) -> Result<Option<Relup>, RecordFault>
    ensures says { IfOk result (λ o. StandsForRelup (value_of term.now) (option_map relup_of o)) }
    ensures bad { IsErrOf result RecordFault.Bad → (o : Option RelupForm)
        → StandsForRelup (value_of term.now) o → ⊥ }
{
    if is_word(term, "none") {
        return Ok(None);
    }
    Ok(Some(relup_of_term(alloc, term)?))
}

// The release that the term of a record brings, whatever its word is.
pub(crate) fn new_release(alloc: Global, parts: ReleaseParts<'_>) -> Result<NewRelease, RecordFault>
    ensures says { IfOk result
        (BringsNew parts.entry.word.now (parts_term (parts_of parts.entry))) }
    ensures bad { IsErrOf result RecordFault.Bad → (r : Release) → (ls : List LibraryInSpecs)
        → (o : Option RelupForm)
        → Brings parts.entry.word.now (parts_term (parts_of parts.entry)) r ls o → ⊥ }
{
    let release = rel_of_term(alloc, parts.rel, 0)?;
    let Some(libraries) = libraries_of_terms(alloc, parts.libs)? else {
        return Err(RecordFault::Bad);
    };
    let relup = relup_in(alloc, parts.relup)?;
    Ok(NewRelease {
        release,
        libraries,
        relup,
    })
}
