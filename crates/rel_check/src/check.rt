//! The tests over a whole release.
ghost use Rattle.std.specs.Prelude.{◌≡◌, map, true};
ghost use Rattle.std.specs.List.{list_all};
ghost use Rattle.std.specs.Option.{option_map, option_map_or};
ghost use Rattle.rel_files.specs.Release.{application_of};
ghost use Rattle.library.specs.InMemory.{shared_of};
ghost use Rattle.rel_check.specs.InMemory.{part_of, module_of};
ghost use Rattle.rel_check.specs.Summary.{summary_of, limits_kept};
ghost use Rattle.rel_check.specs.Fault.{few_modules_in, has_few_rows, rows_are_few, release_fault, Reports};

use crate::fault::ReleaseFault;
use crate::modules::{Module, Part, modules_of, parts_of};
use crate::names::{first_id_again, first_module_again};
use crate::walk::{Walk, release_walk};
use library::Library;
use mod_table::Table;
use rel_files::RelApp;
use std::alloc::Global;
use std::rc::Rc;

// How many rows the table of a worker has at most.
const MOST_ROWS: usize = 4_096;

// How many processes a release starts at most.
const MOST_PROCESSES: usize = 256;

/// The first fault of a release of these applications, with their libraries in the same order. An application in whose place
/// there is no library isn't tested.
pub fn check_release<'a>(
    alloc: Global,
    apps: &'a [RelApp],
    libraries: &'a [Rc<Library>],
) -> Result<(), ReleaseFault<'a>>
    ensures { Reports result
        (release_fault (map application_of apps.now) (map shared_of libraries.now)) }
{
    let found_parts = parts_of(alloc, apps, libraries)?;
    let parts = found_parts.as_slice();
    let found_modules = modules_of(alloc, parts)?;
    let modules = found_modules.as_slice();
    if let Some(named) = first_module_again(alloc, modules)? {
        return Err(ReleaseFault::ModuleTwice(named));
    }
    if let Some(named) = first_id_again(alloc, parts)? {
        return Err(ReleaseFault::IdTwice(named));
    }
    let walk = release_walk(alloc, parts, modules)?;
    if let Some(name) = walk.missing {
        return Err(ReleaseFault::NoTable(name));
    }
    if keeps_limits(parts, modules, walk) {
        Ok(())
    } else {
        Err(ReleaseFault::TooMany)
    }
}

// No limit is passed, where the walk found this.
fn keeps_limits(parts: &[Part<'_>], modules: &[Module<'_>], walk: Walk<'_>) -> bool
    ensures { result ≡ limits_kept
        (map part_of parts.now) (map module_of modules.now) (summary_of walk.entry) }
{
    have_few_modules(parts)
        && have_few_rows(modules)
        && walk.within
        && walk.processes <= MOST_PROCESSES
}

fn have_few_modules(parts: &[Part<'_>]) -> bool
    ensures { result ≡ list_all few_modules_in (map part_of parts.now) }
{
    for part in parts {
        if !part.library.app.has_few_modules() {
            return false;
        }
    }
    true
}

fn have_few_rows(modules: &[Module<'_>]) -> bool
    ensures { result ≡ list_all has_few_rows (map module_of modules.now) }
{
    for module in modules {
        if !has_few_rows(module.table) {
            return false;
        }
    }
    true
}

fn has_few_rows(table: Option<&Table>) -> bool
    ensures { result ≡ option_map_or rows_are_few (option_map (λ t. t.now) table.entry) true }
{
    match table {
        Some(Table::Worker(worker)) => worker.row_count() <= MOST_ROWS,
        Some(Table::Super(_)) | None => true,
    }
}
