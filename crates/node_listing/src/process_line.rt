//! Processes and modules as they are listed.
ghost use Rattle.std.specs.Prelude.{◌≡◌, [], ◌∷◌, ◌++◌, string_bytes, IfOk, OnOk};
ghost use Rattle.erl_term.specs.Value.{value_of, values_of};
ghost use Rattle.erl_term.specs.Value.Value.{tuple};
ghost use Rattle.node_listing.specs.Listing.{process_line, process_value, standing_word, module_line};

use crate::line::push_term;
use erl_term::Term;
use proc_history::{Now, Standing, Value};
use rel_files::terms::{atom_term, pair_term, text_term};
use std::alloc::{AllocError, Global};

/// Puts the line of what stands in a slot at the end: of a process its application, its id, its module, the version of that,
/// and `up`, or `down` for one that is stopped too. Nothing is put there where no process stands.
pub fn push_process(alloc: Global, text: &mut String, value: &Value) -> Result<(), AllocError>
    ensures { OnOk result
        (string_bytes text.new ≡ string_bytes text.old ++ process_line value.entry.now) }
{
    let Some(process) = &value.now else {
        return Ok(());
    };
    let term = process_term(alloc, process)?;
    push_term(alloc, text, &term)
}

/// Puts the line of a module at the end: its name, and the version that is loaded.
pub fn push_module(
    alloc: Global,
    text: &mut String,
    name: &str,
    vsn: &str,
) -> Result<(), AllocError>
    ensures { OnOk result
        (string_bytes text.new ≡ string_bytes text.old ++ module_line name.now vsn.now) }
{
    let name = atom_term(alloc, name)?;
    let vsn = text_term(alloc, vsn)?;
    let term = pair_term(alloc, name, vsn)?;
    push_term(alloc, text, &term)
}

/// A process as it is listed.
fn process_term(alloc: Global, process: &Now) -> Result<Term, AllocError>
    ensures { IfOk result (λ t. value_of t ≡ process_value process.entry.now) }
{
    let app = atom_term(alloc, process.app.as_str())?;
    let id = atom_term(alloc, process.id.as_str())?;
    let module = atom_term(alloc, process.table.name())?;
    let vsn = text_term(alloc, process.table.vsn())?;
    let standing = atom_term(alloc, standing_word(process.standing))?;
    tuple_of_five(alloc, app, id, module, vsn, standing)
}

fn tuple_of_five(
    alloc: Global,
    first: Term,
    second: Term,
    third: Term,
    fourth: Term,
    fifth: Term,
) -> Result<Term, AllocError>
    ensures { IfOk result (λ t. value_of t ≡ tuple (values_of (value_of first
        ∷ value_of second ∷ value_of third ∷ value_of fourth ∷ value_of fifth ∷ []))) }
{
    Ok(Term::Tuple(vec![in alloc; first, second, third, fourth, fifth]?))
}

// Whether the process is up.
fn standing_word(standing: Standing) -> &'static str
    ensures { result.now ≡ standing_word standing }
{
    match standing {
        Standing::Up => "up",
        Standing::Down | Standing::Stopped => "down",
    }
}
