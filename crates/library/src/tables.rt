//! The tables of a library's term.
ghost use Rattle.std.specs.Prelude.{◌≡◌, ◌≢◌, List, Option, Some, IfOk, OnOk, MatchOption, map, string_bytes};
ghost use Rattle.std.specs.Option.{option_map};
ghost use Rattle.erl_term.specs.Value.{members_of, value_of};
ghost use Rattle.mod_table.specs.declared.table.Table.{Table};
ghost use Rattle.mod_table.specs.File.{IsTableTerm};
ghost use Rattle.library.specs.InMemory.{table_term_of};
ghost use Rattle.library.specs.Library.{TableTerm};
ghost use Rattle.library.specs.Reading.{AreTables, taken, placed};

use erl_term::Term;
use mod_table::{ModFile, table_of_term};
use rel_files::FileFault;
use std::alloc::{AllocError, Global};
use std::collections::VecDeque;

// No answer where memory was wanting.
pub(crate) fn had_memory(fault: &FileFault) -> Result<(), AllocError>
    ensures { OnOk result (fault.now ≢ FileFault.NoMemory) }
{
    match fault {
        FileFault::NoMemory => Err(AllocError),
        _ => Ok(()),
    }
}

// The table that a term says, and the term.
fn table_in(alloc: Global, term: &Term) -> Result<Option<ModFile>, AllocError>
    ensures { IfOk result (λ file. MatchOption file
        ((t : Table) → IsTableTerm (value_of term.now) t → ⊥)
        (λ f. (value_of f.term ≡ value_of term.now) × IsTableTerm (value_of term.now) f.table)) }
{
    match table_of_term(alloc, term, 0) {
        Ok(table) => Ok(Some(ModFile {
            term: term.clone()?,
            table,
        })),
        Err(fault) => {
            had_memory(&fault)?;
            Ok(None)
        }
    }
}

// The tables that the terms say, in the places of their modules.
pub(crate) fn placed_in(
    alloc: Global,
    modules: &[String],
    terms: &[Term],
) -> Result<Option<Vec<Option<ModFile>>>, AllocError>
    ensures { IfOk result (λ tables. MatchOption tables
        ((us : List TableTerm) → (ts : List (Option TableTerm))
        → AreTables (members_of terms.now) us
        → placed (map string_bytes modules.now) us ≡ Some ts → ⊥)
        (λ v. (us : List TableTerm) × AreTables (members_of terms.now) us
        × (placed (map string_bytes modules.now) us
        ≡ Some (map (λ t. option_map table_term_of t) v.items)))) }
{
    match tables_in(alloc, terms)? {
        Some(files) => placed(alloc, modules, files),
        None => Ok(None),
    }
}

// The tables that the terms say, if each says one.
fn tables_in(alloc: Global, terms: &[Term]) -> Result<Option<VecDeque<ModFile>>, AllocError>
    ensures { IfOk result (λ files. MatchOption files
        ((ts : List TableTerm) → AreTables (members_of terms.now) ts → ⊥)
        (λ v. AreTables (members_of terms.now) (map table_term_of v.items))) }
{
    let mut files = VecDeque::new(alloc);
    for term in terms {
        let Some(file) = table_in(alloc, term)? else {
            return Ok(None);
        };
        files.push_back(file)?;
    }
    Ok(Some(files))
}

// Takes the next table, if it is that of this module.
fn take(files: &mut VecDeque<ModFile>, name: &str) -> Option<ModFile>
    ensures { (option_map table_term_of result, map table_term_of files.new.items)
        ≡ taken name.now (map table_term_of files.old.items) }
{
    let next = files.front()?;
    if next.table.name() == name {
        files.pop_front()
    } else {
        None
    }
}

// The tables in the places of their modules, if they stand in the order of these.
fn placed(
    alloc: Global,
    modules: &[String],
    files: VecDeque<ModFile>,
) -> Result<Option<Vec<Option<ModFile>>>, AllocError>
    ensures { IfOk result (λ tables.
        option_map (λ v. map (λ t. option_map table_term_of t) v.items) tables
        ≡ placed (map string_bytes modules.now) (map table_term_of files.items)) }
{
    let mut tables = Vec::with_capacity(alloc, modules.len())?;
    let mut rest = files;
    for module in modules {
        tables.push(take(&mut rest, module.as_str()))?;
    }
    if rest.is_empty() {
        Ok(Some(tables))
    } else {
        Ok(None)
    }
}
