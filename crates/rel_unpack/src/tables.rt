//! The tables of an application's modules.
ghost use Rattle.std.specs.Prelude.{◌≡◌, map, string_bytes};
ghost use Rattle.std.specs.Option.{option_map};
ghost use Rattle.library.specs.InMemory.{table_term_of};
ghost use Rattle.rel_files.specs.Release.{application_of};
ghost use Rattle.rel_unpack.specs.Applications.{ModuleAt, TableAt, is_of, mod_form};
ghost use Rattle.rel_unpack.specs.Order.{Answers, Each};
ghost use Rattle.rel_unpack.specs.Source.{FileSays};

use crate::error::UnpackError;
use crate::paths::mod_path;
use crate::source::{read_bytes, refusal_for, unless_missing};
use file_source::Files;
use mod_table::{ModFile, read_mod_file};
use rel_files::RelApp;
use std::alloc::Global;

// What the modules have, in their order.
pub(crate) fn read_tables<F: Files>(
    alloc: Global,
    files: &F,
    app: &RelApp,
    names: &[String],
) -> Result<Vec<Option<ModFile>>, UnpackError>
    ensures { Answers (λ v. map (λ t. option_map table_term_of t) v.items)
        (Each (ModuleAt (F.gives files.now) (application_of app.now)) (map string_bytes names.now))
        result }
{
    let mut tables = Vec::with_capacity(alloc, names.len())?;
    for name in names {
        tables.push(read_module(alloc, files, app, name.as_str())?)?;
    }
    Ok(tables)
}

// What a module has: without a file it has no table.
fn read_module<F: Files>(
    alloc: Global,
    files: &F,
    app: &RelApp,
    name: &str,
) -> Result<Option<ModFile>, UnpackError>
    ensures { Answers (λ t. option_map table_term_of t)
        (ModuleAt (F.gives files.now) (application_of app.now) name.now) result }
{
    match read_table(alloc, files, app, name) {
        Ok(file) => Ok(Some(file)),
        Err(error) => unless_missing(error),
    }
}

// The table of a module, from its file.
fn read_table<F: Files>(
    alloc: Global,
    files: &F,
    app: &RelApp,
    name: &str,
) -> Result<ModFile, UnpackError>
    ensures { Answers table_term_of
        (TableAt (F.gives files.now) (application_of app.now) name.now) result }
{
    let path = mod_path(alloc, app, name)?;
    let file = table_in(alloc, files, path.as_str())?;
    if is_of(name, &file) {
        Ok(file)
    } else {
        Err(UnpackError::VsnMismatch(path))
    }
}

// Whether the table is of the module that its path says.
fn is_of(name: &str, file: &ModFile) -> bool
    ensures { result ≡ is_of name.now (table_term_of file.now) }
{
    file.table.name() == name
}

fn table_in<F: Files>(alloc: Global, files: &F, path: &str) -> Result<ModFile, UnpackError>
    ensures { Answers table_term_of (FileSays mod_form (F.gives files.now) path.now) result }
{
    let bytes = read_bytes(alloc, files, path)?;
    match read_mod_file(alloc, bytes.as_slice()) {
        Ok(file) => Ok(file),
        Err(fault) => Err(refusal_for(alloc, path, fault)),
    }
}
