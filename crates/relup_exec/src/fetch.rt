//! `load_object_code`: modules are fetched from a library.
ghost use Rattle.library.specs.InMemory.{shared_of};
ghost use Rattle.proc_table.specs.declared.view.View.{View};
ghost use Rattle.relup_instruction.specs.Instruction.Instruction.{load_object_code};
ghost use Rattle.relup_instruction.specs.Instruction.{fetch_of};
ghost use Rattle.script_progress.specs.InMemory.{site_of};
ghost use Rattle.script_progress.specs.Script.{library_for};
ghost use Rattle.script_progress.specs.Steps.{CarriesOut, HasDone, Past, progress_of};
ghost use Rattle.relup_exec.specs.Steps.{Fetches};
ghost use Rattle.std.specs.Prelude.{Bool, Some, map, string_bytes};
ghost use Rattle.loaded_modules.specs.Loaded.{listed_in};

use library::Library;
use loaded_modules::Loaded;
use relup_instruction::Fetch;
use script_progress::{Cause, Failure, Progress, Sources, failure_at_start};
use std::alloc::Global;
use std::rc::Rc;

// Fetches the modules, in place of those of their names that were fetched before.
pub(crate) fn fetch(
    progress: &mut Progress,
    alloc: Global,
    sources: &Sources<'_>,
    fetch: &Fetch,
) -> Result<(), Failure>
    ensures { (past : Past) (v : View) (early : Bool)
        → HasDone past (progress_of progress.old) progress.old.tree v
        → CarriesOut (site_of sources.now) past early (load_object_code (fetch_of fetch.now))
        result (progress_of progress.new) progress.new.tree v v }
{
    match fetch_from(alloc, sources, &mut progress.fetched, fetch) {
        Ok(()) => Ok(()),
        Err(cause) => Err(failure_at_start(cause)),
    }
}

fn fetch_from(
    alloc: Global,
    sources: &Sources<'_>,
    fetched: &mut Loaded,
    fetch: &Fetch,
) -> Result<(), Cause>
    ensures { Fetches (library_for (site_of sources.now) (fetch_of fetch.now))
        (fetch_of fetch.now).modules (listed_in fetched.old) result (listed_in fetched.new) }
{
    match sources.list.library(fetch.app.as_str(), fetch.vsn.as_str()) {
        Some(library) => fetch_all(alloc, library, fetched, fetch.modules.as_slice()),
        None => Err(Cause::NoLibrary),
    }
}

// Fetches these modules of a library.
fn fetch_all(
    alloc: Global,
    library: &Rc<Library>,
    fetched: &mut Loaded,
    names: &[String],
) -> Result<(), Cause>
    ensures { Fetches (Some (shared_of library.now)) (map string_bytes names.now)
        (listed_in fetched.old) result (listed_in fetched.new) }
{
    for name in names {
        if !fetched.load(alloc, library, name.as_str())? {
            return Err(Cause::NoModule);
        }
    }
    Ok(())
}
