//! The terms of instructions.
ghost use Rattle.std.specs.Prelude.{◌≡◌, IfOk, codes, map, string_bytes};
ghost use Rattle.erl_term.specs.Value.{members_of, value_of};
ghost use Rattle.rel_files.specs.Terms.{list_of, atoms_term};
ghost use Rattle.relup_instruction.specs.Instruction.{fetch_of, suspension_of, purging_of, change_of, conversion_of, call_of, instruction_of};
ghost use Rattle.relup_instruction.specs.Form.{one, command, purge_word, direction_word, timeout_term, fetch_term, suspension_term, purging_term, change_term, conversion_members, call_term, instruction_term};

use crate::{
    Call, Change, Conversion, Direction, Fetch, Instr, PurgeMode, Purging, Suspension, Timeout,
};
use erl_term::{Term, copy_terms};
use rel_files::terms::{atom_term, atoms_term, pair_term, text_term, triple_term};
use std::alloc::{AllocError, Global};

// A word and one term.
fn command(alloc: Global, word: &str, only: Term) -> Result<Term, AllocError>
    ensures { IfOk result (λ t. value_of t ≡ command word.now (one (value_of only))) }
{
    let word = atom_term(alloc, word)?;
    pair_term(alloc, word, only)
}

fn purge_word(mode: PurgeMode) -> &'static str
    ensures { result.now ≡ purge_word mode }
{
    match mode {
        PurgeMode::Soft => "soft_purge",
        PurgeMode::Brutal => "brutal_purge",
    }
}

fn direction_word(direction: Direction) -> &'static str
    ensures { result.now ≡ direction_word direction }
{
    match direction {
        Direction::Up => "up",
        Direction::Down => "down",
    }
}

fn timeout_term(alloc: Global, timeout: Timeout) -> Result<Term, AllocError>
    ensures { IfOk result (λ t. value_of t ≡ timeout_term timeout) }
{
    match timeout {
        Timeout::Default => atom_term(alloc, "default"),
        Timeout::Infinity => atom_term(alloc, "infinity"),
        Timeout::Milliseconds(n) => Ok(Term::Int(n)),
    }
}

fn fetch_term(alloc: Global, fetch: &Fetch) -> Result<Term, AllocError>
    ensures { IfOk result (λ t. value_of t ≡ fetch_term (fetch_of fetch.now)) }
{
    let app = atom_term(alloc, fetch.app.as_str())?;
    let vsn = text_term(alloc, fetch.vsn.as_str())?;
    let modules = atoms_term(alloc, &fetch.modules)?;
    triple_term(alloc, app, vsn, modules)
}

fn suspension_term(alloc: Global, suspension: &Suspension) -> Result<Term, AllocError>
    ensures { IfOk result (λ t. value_of t ≡ suspension_term (suspension_of suspension.now)) }
{
    let name = atom_term(alloc, suspension.name.as_str())?;
    match suspension.timeout {
        None => Ok(name),
        Some(timeout) => {
            let timeout = timeout_term(alloc, timeout)?;
            pair_term(alloc, name, timeout)
        }
    }
}

fn suspensions_term(alloc: Global, suspensions: &[Suspension]) -> Result<Term, AllocError>
    ensures { IfOk result (λ t.
        value_of t ≡ list_of (map suspension_term (map suspension_of suspensions.now))) }
{
    let mut terms = Vec::with_capacity(alloc, suspensions.len())?;
    for suspension in suspensions {
        terms.push(suspension_term(alloc, suspension)?)?;
    }
    Ok(Term::List(terms))
}

fn purging_term(alloc: Global, purging: &Purging) -> Result<Term, AllocError>
    ensures { IfOk result (λ t. value_of t ≡ purging_term (purging_of purging.now)) }
{
    let name = atom_term(alloc, purging.name.as_str())?;
    let pre = atom_term(alloc, purge_word(purging.pre))?;
    let post = atom_term(alloc, purge_word(purging.post))?;
    triple_term(alloc, name, pre, post)
}

fn change_term(alloc: Global, change: &Change) -> Result<Term, AllocError>
    ensures { IfOk result (λ t. value_of t ≡ change_term (change_of change.now)) }
{
    let name = atom_term(alloc, change.name.as_str())?;
    let extra = change.extra.clone()?;
    pair_term(alloc, name, extra)
}

fn changes_term(alloc: Global, changes: &[Change]) -> Result<Term, AllocError>
    ensures { IfOk result (λ t.
        value_of t ≡ list_of (map change_term (map change_of changes.now))) }
{
    let mut terms = Vec::with_capacity(alloc, changes.len())?;
    for change in changes {
        terms.push(change_term(alloc, change)?)?;
    }
    Ok(Term::List(terms))
}

fn conversion_term(alloc: Global, conversion: &Conversion) -> Result<Term, AllocError>
    ensures { IfOk result (λ t. value_of t
        ≡ command (codes "code_change") (conversion_members (conversion_of conversion.now))) }
{
    let changes = changes_term(alloc, &conversion.changes)?;
    match conversion.mode {
        None => command(alloc, "code_change", changes),
        Some(mode) => {
            let word = atom_term(alloc, "code_change")?;
            let mode = atom_term(alloc, direction_word(mode))?;
            triple_term(alloc, word, mode, changes)
        }
    }
}

fn call_term(alloc: Global, call: &Call) -> Result<Term, AllocError>
    ensures { IfOk result (λ t. value_of t ≡ call_term (call_of call.now)) }
{
    let name = atom_term(alloc, call.name.as_str())?;
    let function = atom_term(alloc, call.function.as_str())?;
    let args = Term::List(copy_terms(alloc, &call.args)?);
    triple_term(alloc, name, function, args)
}

fn sync_nodes_term(alloc: Global, rest: &[Term]) -> Result<Term, AllocError>
    ensures { IfOk result (λ t.
        value_of t ≡ command (codes "sync_nodes") (members_of rest.now)) }
{
    let word = atom_term(alloc, "sync_nodes")?;
    let mut members = copy_terms(alloc, rest)?;
    members.insert(0, word)?;
    Ok(Term::Tuple(members))
}

// An instruction with a list of modules.
fn of_modules(alloc: Global, word: &str, names: &[String]) -> Result<Term, AllocError>
    ensures { IfOk result (λ t.
        value_of t ≡ command word.now (one (atoms_term (map string_bytes names.now)))) }
{
    let names = atoms_term(alloc, names)?;
    command(alloc, word, names)
}

/// The term of an instruction.
pub fn instruction_term(alloc: Global, instr: &Instr) -> Result<Term, AllocError>
    ensures { IfOk result (λ t. value_of t ≡ instruction_term (instruction_of instr.now)) }
{
    match instr {
        Instr::LoadObjectCode(fetch) => {
            command(alloc, "load_object_code", fetch_term(alloc, fetch)?)
        }
        Instr::PointOfNoReturn => atom_term(alloc, "point_of_no_return"),
        Instr::Suspend(all) => command(alloc, "suspend", suspensions_term(alloc, all)?),
        Instr::Load(purging) => command(alloc, "load", purging_term(alloc, purging)?),
        Instr::CodeChange(conversion) => conversion_term(alloc, conversion),
        Instr::Resume(names) => of_modules(alloc, "resume", names),
        Instr::Remove(purging) => command(alloc, "remove", purging_term(alloc, purging)?),
        Instr::Purge(names) => of_modules(alloc, "purge", names),
        Instr::Stop(names) => of_modules(alloc, "stop", names),
        Instr::Start(names) => of_modules(alloc, "start", names),
        Instr::Apply(call) => command(alloc, "apply", call_term(alloc, call)?),
        Instr::SyncNodes(rest) => sync_nodes_term(alloc, rest),
        Instr::RestartNewEmulator => atom_term(alloc, "restart_new_emulator"),
        Instr::RestartEmulator => atom_term(alloc, "restart_emulator"),
    }
}
