//! From a `.app` file to an application.
ghost use Rattle.std.specs.Prelude.{◌≡◌, ◌≢◌, ℕ, true, Some, IfOk, IfErr, MatchResult};
ghost use Rattle.erl_term.specs.Value.{Value, value_of};
ghost use Rattle.erl_term.specs.Within.{IsWithin};
ghost use Rattle.rel_files.specs.Name.{is_text, AreDistinct};
ghost use Rattle.rel_files.specs.AppFile.{Specification, with_term, IsAppTerm, SaysApp, IsTermFault, IsAppFault};
ghost use Rattle.rel_files.specs.AppInMemory.{contents_of, specification_of};
ghost use Rattle.rel_files.specs.AppParts.{contents_in};

use crate::app_contents::Contents;
use crate::text::is_version;
use crate::{App, FileFault, FileTerm, read_one_term};
use erl_term::Term;
use std::alloc::Global;

/// Reads a `.app` file.
pub fn read_app(alloc: Global, bytes: &[u8]) -> Result<App, FileFault>
    ensures says { IfOk result (λ app. SaysApp bytes.now (specification_of app)) }
    ensures only { (a : Specification) → SaysApp bytes.now a →
        MatchResult result (λ app. specification_of app ≡ a) (λ f. f ≡ FileFault.NoMemory) }
    ensures fault { IfErr result (λ f. f ≢ FileFault.NoMemory → IsAppFault bytes.now f) }

    // The term has short atoms, and few brackets are open at once when it is printed.
    ensures within { IfOk result (λ app. IsWithin 65 (value_of app.whole)) }
{
    let file = read_one_term(alloc, bytes)?;
    let FileTerm { term, at } = file;
    app_of_term(alloc, term, at)
}

/// The application that a term describes, which keeps the term. `at` is where the term begins, and so the place of a
/// BadShape.
pub fn app_of_term(alloc: Global, term: Term, at: usize) -> Result<App, FileFault>
    ensures says { IfOk result (λ app. IsAppTerm (value_of term) (specification_of app)) }
    ensures only { (a : Specification) → IsAppTerm (value_of term) a →
        MatchResult result (λ app. specification_of app ≡ a) (λ f. f ≡ FileFault.NoMemory) }
    ensures fault { IfErr result (λ f.
        f ≢ FileFault.NoMemory → IsTermFault (value_of term) at f) }
{
    let contents = contents_of_term(alloc, &term, at)?;
    Ok(App {
        name: contents.name,
        vsn: contents.vsn,
        modules: contents.modules,
        top: contents.top,
        whole: term,
    })
}

// What a term says that describes an application.
fn contents_of_term(alloc: Global, term: &Term, at: usize) -> Result<Contents, FileFault>
    ensures says { IfOk result (λ c.
        IsAppTerm (value_of term.now) (with_term (value_of term.now) (contents_of c))) }
    ensures only { (a : Specification) → IsAppTerm (value_of term.now) a →
        MatchResult result (λ c. with_term (value_of term.now) (contents_of c) ≡ a)
        (λ f. f ≡ FileFault.NoMemory) }
    ensures fault { IfErr result (λ f.
        f ≢ FileFault.NoMemory → IsTermFault (value_of term.now) at f) }
{
    let Some(contents) = Contents::read(alloc, term)? else {
        return Err(FileFault::BadShape(at));
    };
    check_contents(alloc, &contents)?;
    Ok(contents)
}

// Looks that no module stands twice, and that the version is one. A fault is that of each term that says this.
fn check_contents(alloc: Global, contents: &Contents) -> Result<(), FileFault>
    ensures sound { IfOk result (λ _. AreDistinct (contents_of contents.now).modules
        × (is_text 0x21 (contents_of contents.now).vsn ≡ true)) }
    ensures fault { (v : Value) (at : ℕ) → Some (contents_of contents.now) ≡ contents_in v →
        IfErr result (λ f. f ≢ FileFault.NoMemory → IsTermFault v at f) }
{
    if let Some(module) = contents.module_twice(alloc)? {
        return Err(FileFault::Duplicate(String::from_str(alloc, module)?));
    }
    if !is_version(contents.vsn.as_str()) {
        return Err(FileFault::BadVersion);
    }
    Ok(())
}
