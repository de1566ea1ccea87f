//! The modules of a release.
ghost use Rattle.std.specs.Prelude.{◌≡◌, ◌++◌, IfOk, OnOk, map};
ghost use Rattle.std.specs.Option.{option_map};
ghost use Rattle.rel_files.specs.Release.{application_of};
ghost use Rattle.library.specs.InMemory.{shared_of, table_term_of};
ghost use Rattle.rel_check.specs.Modules.{parts, table_in, modules_of, modules_in};
ghost use Rattle.rel_check.specs.InMemory.{part_of, module_of};

use library::Library;
use mod_table::{ModFile, Table};
use rel_files::RelApp;
use std::alloc::{AllocError, Global};
use std::rc::Rc;

/// An application of a release, with its library.
#[derive(Clone, Copy)]
pub(crate) struct Part<'a> {
    pub(crate) app: &'a RelApp,
    pub(crate) library: &'a Library,
}

/// A module, the application that lists it, and its table, where it has one.
#[derive(Clone, Copy)]
pub(crate) struct Module<'a> {
    pub(crate) name: &'a str,
    pub(crate) app: &'a RelApp,
    pub(crate) table: Option<&'a Table>,
}

/// Each application with the library in its place.
pub(crate) fn parts_of<'a>(
    alloc: Global,
    apps: &'a [RelApp],
    libraries: &'a [Rc<Library>],
) -> Result<Vec<Part<'a>>, AllocError>
    ensures { IfOk result (λ found. map part_of found.items
        ≡ parts (map application_of apps.now) (map shared_of libraries.now)) }
{
    let mut found = Vec::with_capacity(alloc, apps.len())?;
    let mut others = libraries;
    for app in apps {
        let Some((library, rest)) = others.split_first() else {
            return Ok(found);
        };
        found.push(Part {
            app,
            library: library.as_ref(),
        })?;
        others = rest;
    }
    Ok(found)
}

/// The modules of all applications, in their order.
pub(crate) fn modules_of<'a>(
    alloc: Global,
    parts: &[Part<'a>],
) -> Result<Vec<Module<'a>>, AllocError>
    ensures { IfOk result (λ found.
        map module_of found.items ≡ modules_in (map part_of parts.now)) }
{
    let mut found = Vec::new(alloc);
    for part in parts {
        add_modules(&mut found, *part)?;
    }
    Ok(found)
}

// The modules of an application, after those that are there.
fn add_modules<'a>(found: &mut Vec<Module<'a>>, part: Part<'a>) -> Result<(), AllocError>
    ensures { OnOk result (map module_of found.new.items
        ≡ map module_of found.old.items ++ modules_of (part_of part.entry)) }
{
    let mut tables = part.library.tables.as_slice();
    for name in part.library.app.modules.as_slice() {
        let Some((table, rest)) = tables.split_first() else {
            return Ok(());
        };
        found.push(Module {
            name: name.as_str(),
            app: part.app,
            table: table_in(table),
        })?;
        tables = rest;
    }
    Ok(())
}

// The table of a file that is there.
fn table_in(file: &Option<ModFile>) -> Option<&Table>
    ensures { option_map (λ t. t.now) result ≡ table_in (option_map table_term_of file.now) }
{
    match file {
        Some(file) => Some(&file.table),
        None => None,
    }
}
