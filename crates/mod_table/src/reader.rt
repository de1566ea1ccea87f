//! From a `.mod` file to a table.
ghost use Rattle.std.specs.Prelude.{◌≡◌, ◌≢◌, ℕ, true, Some, IfOk, IfErr, MatchResult};
ghost use Rattle.erl_term.specs.Value.{Value, value_of};
ghost use Rattle.erl_term.specs.Within.{IsWithin};
ghost use Rattle.mod_table.specs.declared.table.Table.{Table};
ghost use Rattle.mod_table.specs.File.{table_in, ids_of, versions_of, IsTableTerm, SaysTable, SaysWith, IsTermFault, IsModFault};
ghost use Rattle.rel_files.specs.Name.{AreDistinct};

use crate::Table;
use erl_term::Term;
use rel_files::{FileFault, read_one_term};
use std::alloc::Global;

/// A `.mod` file: its term, and the table that this describes.
#[derive(Drop)]
pub struct ModFile {
    pub term: Term,
    pub table: Table,
}

/// Reads a `.mod` file.
pub fn read_mod(alloc: Global, bytes: &[u8]) -> Result<Table, FileFault>
    ensures says { IfOk result (λ table. SaysTable bytes.now table) }
    ensures only { (t : Table) → SaysTable bytes.now t →
        MatchResult result (λ table. table ≡ t) (λ f. f ≡ FileFault.NoMemory) }
    ensures fault { IfErr result (λ f. f ≢ FileFault.NoMemory → IsModFault bytes.now f) }
{
    let file = read_mod_file(alloc, bytes)?;
    Ok(file.table)
}

/// Reads a `.mod` file, and keeps its term.
pub fn read_mod_file(alloc: Global, bytes: &[u8]) -> Result<ModFile, FileFault>
    ensures says { IfOk result (λ file. SaysWith bytes.now (value_of file.term) file.table) }
    ensures only { (t : Table) → SaysTable bytes.now t →
        MatchResult result (λ file. file.table ≡ t) (λ f. f ≡ FileFault.NoMemory) }
    ensures fault { IfErr result (λ f. f ≢ FileFault.NoMemory → IsModFault bytes.now f) }

    // The term has short atoms, and few brackets are open at once when it is printed.
    ensures within { IfOk result (λ file. IsWithin 65 (value_of file.term)) }
{
    let file = read_one_term(alloc, bytes)?;
    let table = table_of_term(alloc, &file.term, file.at)?;
    Ok(ModFile {
        term: file.term,
        table,
    })
}

/// The table that a term describes. `at` is where the term begins, and so the place of a BadShape.
pub fn table_of_term(alloc: Global, term: &Term, at: usize) -> Result<Table, FileFault>
    ensures says { IfOk result (λ table. IsTableTerm (value_of term.now) table) }
    ensures only { (t : Table) → IsTableTerm (value_of term.now) t →
        MatchResult result (λ table. table ≡ t) (λ f. f ≡ FileFault.NoMemory) }
    ensures fault { IfErr result (λ f.
        f ≢ FileFault.NoMemory → IsTermFault (value_of term.now) at f) }
{
    let Some(table) = Table::read(alloc, term)? else {
        return Err(FileFault::BadShape(at));
    };
    check_table(alloc, &table)?;
    Ok(table)
}

// Looks that no id stands twice in the table, and that each version in it is one. A fault is that of each term that describes
// this table.
fn check_table(alloc: Global, table: &Table) -> Result<(), FileFault>
    ensures sound { IfOk result (λ _.
        AreDistinct (ids_of table.now) × (versions_of table.now ≡ true)) }
    ensures fault { (v : Value) (at : ℕ) → Some table.now ≡ table_in v →
        IfErr result (λ f. f ≢ FileFault.NoMemory → IsTermFault v at f) }
{
    if let Some(id) = table.id_twice(alloc)? {
        return Err(FileFault::Duplicate(String::from_str(alloc, id)?));
    }
    if table.has_versions() {
        Ok(())
    } else {
        Err(FileFault::BadVersion)
    }
}
