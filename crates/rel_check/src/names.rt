//! Names that stand twice.
ghost use Rattle.std.specs.Prelude.{◌≡◌, ◌++◌, IfOk, OnOk, map};
ghost use Rattle.std.specs.Option.{option_map};
ghost use Rattle.rel_files.specs.Release.{application_of};
ghost use Rattle.mod_table.specs.InMemory.{child_of};
ghost use Rattle.mod_table.specs.File.{ids_of};
ghost use Rattle.mod_table.specs.Table.{ChildSpec};
ghost use Rattle.rel_check.specs.InMemory.{part_of, module_of, named_of};
ghost use Rattle.rel_check.specs.Names.{first_again, first_module_again, first_id_again, module_names, child_ids, named_by};

use crate::modules::{Module, Part};
use mod_table::{Child, Table};
use rel_files::RelApp;
use std::alloc::{AllocError, Global};
use std::collections::BTreeSet;

/// A name, and the application whose files have it.
#[derive(Clone, Copy)]
pub struct Named<'a> {
    pub name: &'a str,
    pub app: &'a RelApp,
}

/// The first module that stands in two applications, with the second of them.
pub(crate) fn first_module_again<'a>(
    alloc: Global,
    modules: &[Module<'a>],
) -> Result<Option<Named<'a>>, AllocError>
    ensures { IfOk result (λ found. option_map named_of found
        ≡ first_again (module_names (map module_of modules.now))) }
{
    let mut names = Vec::with_capacity(alloc, modules.len())?;
    for module in modules {
        names.push(Named {
            name: module.name,
            app: module.app,
        })?;
    }
    first_again(alloc, names.as_slice())
}

/// The first id that two children in the tables of one application have.
pub(crate) fn first_id_again<'a>(
    alloc: Global,
    parts: &[Part<'a>],
) -> Result<Option<Named<'a>>, AllocError>
    ensures { IfOk result (λ found. option_map named_of found
        ≡ first_id_again (map part_of parts.now)) }
{
    for part in parts {
        let names = child_ids(alloc, *part)?;
        if let Some(found) = first_again(alloc, names.as_slice())? {
            return Ok(Some(found));
        }
    }
    Ok(None)
}

// The first name that stands a second time, with the application where it does.
fn first_again<'a>(alloc: Global, names: &[Named<'a>]) -> Result<Option<Named<'a>>, AllocError>
    ensures { IfOk result (λ found. option_map named_of found
        ≡ first_again (map named_of names.now)) }
{
    let mut seen: BTreeSet<&str> = BTreeSet::new(alloc);
    for named in names {
        if !seen.insert(named.name)? {
            return Ok(Some(*named));
        }
    }
    Ok(None)
}

// The ids of the children in all tables of an application.
fn child_ids<'a>(alloc: Global, part: Part<'a>) -> Result<Vec<Named<'a>>, AllocError>
    ensures { IfOk result (λ names.
        map named_of names.items ≡ child_ids (part_of part.entry)) }
{
    let mut names = Vec::new(alloc);
    for file in part.library.tables.as_slice() {
        if let Some(file) = file {
            add_ids(&mut names, part.app, &file.table)?;
        }
    }
    Ok(names)
}

// The ids of a table's children, after those that are there.
fn add_ids<'a>(
    names: &mut Vec<Named<'a>>,
    app: &'a RelApp,
    table: &'a Table,
) -> Result<(), AllocError>
    ensures { OnOk result (map named_of names.new.items ≡ map named_of names.old.items
        ++ named_by (application_of app.now) (ids_of table.now)) }
{
    match table {
        Table::Worker(_) => Ok(()),
        Table::Super(supervisor) => add_children(names, app, supervisor.children()),
    }
}

fn add_children<'a>(
    names: &mut Vec<Named<'a>>,
    app: &'a RelApp,
    children: &'a [Child],
) -> Result<(), AllocError>
    ensures { OnOk result (map named_of names.new.items ≡ map named_of names.old.items
        ++ named_by (application_of app.now)
        (map (λ (c : ChildSpec). c.id) (map child_of children.now))) }
{
    for child in children {
        names.push(Named {
            name: child.id.as_str(),
            app,
        })?;
    }
    Ok(())
}
