//! What starts, stops, loads and unloads applications in a script.
ghost use Rattle.std.specs.Prelude.{◌≡◌, ◌∷◌, [], IfOk, OnOk, map};
ghost use Rattle.erl_term.specs.Value.{value_of, values_of};
ghost use Rattle.erl_term.specs.Value.Value.{atom};
ghost use Rattle.rel_files.specs.Form.{start_word};
ghost use Rattle.relup_instruction.specs.Instruction.{instruction_of};
ghost use Rattle.relup_row.specs.Script.{application_call, call_with, start_call, starting};
ghost use Rattle.relup_block.specs.Memory.{Appends};

use erl_term::Term;
use rel_files::StartType;
use relup_block::push_instr;
use relup_instruction::{Call, Instr};
use std::alloc::{AllocError, Global};

// Of any lifetime, so that it may stand in one slice with other words.
fn start_word<'a>(start: StartType) -> &'a str
    ensures { result.now ≡ start_word start }
{
    match start {
        StartType::Permanent => "permanent",
        StartType::Transient => "transient",
        StartType::Temporary => "temporary",
        StartType::Load => "load",
        StartType::Unloaded => "none",
    }
}

fn atoms(alloc: Global, words: &[&str]) -> Result<Vec<Term>, AllocError>
    ensures { IfOk result (λ v. map value_of v.items ≡ map (λ w. atom w.now) words.now) }
{
    let mut atoms = Vec::with_capacity(alloc, words.len())?;
    for word in words {
        atoms.push(Term::Atom(String::from_str(alloc, word)?))?;
    }
    Ok(atoms)
}

// A call of a function of the module `application`, with atoms.
fn application_call(alloc: Global, function: &str, words: &[&str]) -> Result<Instr, AllocError>
    ensures { IfOk result (λ i. instruction_of i
        ≡ application_call function.now (values_of (map (λ w. atom w.now) words.now))) }
{
    Ok(Instr::Apply(Call {
        name: String::from_str(alloc, "application")?,
        function: String::from_str(alloc, function)?,
        args: atoms(alloc, words)?,
    }))
}

// With an application alone.
pub(crate) fn push_call(
    alloc: Global,
    function: &str,
    app: &str,
    out: &mut Vec<Instr>,
) -> Result<(), AllocError>
    ensures { OnOk result
        (Appends out.old.items out.new.items (call_with function.now app.now ∷ [])) }
{
    push_instr(application_call(alloc, function, &[app])?, out)
}

fn push_start_call(
    alloc: Global,
    start: StartType,
    app: &str,
    out: &mut Vec<Instr>,
) -> Result<(), AllocError>
    ensures { OnOk result
        (Appends out.old.items out.new.items (start_call start app.now ∷ [])) }
{
    push_instr(
        application_call(alloc, "start", &[app, start_word(start)])?,
        out,
    )
}

// How an application of this type is started, loaded alone, or neither.
pub(crate) fn push_start(
    alloc: Global,
    start: StartType,
    app: &str,
    out: &mut Vec<Instr>,
) -> Result<(), AllocError>
    ensures { OnOk result (Appends out.old.items out.new.items (starting start app.now)) }
{
    match start {
        StartType::Load => push_call(alloc, "load", app, out),
        StartType::Unloaded => Ok(()),
        start => push_start_call(alloc, start, app, out),
    }
}
