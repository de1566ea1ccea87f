//! `code_change`: the states of processes that are held are changed, and the children of supervisors.
ghost use Rattle.worker_table.specs.InMemory.{old_of};
ghost use Rattle.proc_table.specs.declared.view.View.{View};
ghost use Rattle.relup_instruction.specs.Instruction.Instruction.{code_change};
ghost use Rattle.relup_instruction.specs.Instruction.{change_of, conversion_of};
ghost use Rattle.script_progress.specs.InMemory.{site_of};
ghost use Rattle.relup_instruction.specs.declared.instruction.Direction.{Direction as Way};
ghost use Rattle.script_progress.specs.Script as script;
ghost use Rattle.script_progress.specs.Script.{old_version, supervisors_changed, version_in};
ghost use Rattle.script_progress.specs.Stops.{is_super};
ghost use Rattle.script_progress.specs.Steps.{CarriesOut, HasDone, Past, progress_of};
ghost use Rattle.relup_exec.specs.Steps.{ChangesOnce, ChangesProcesses};
ghost use Rattle.std.specs.Option.{option_map, option_or};
ghost use Rattle.std.specs.Prelude.{◌≡◌, Bool, IfOk, OnErr, OnOk, Some, is_some, true};
ghost use Rattle.loaded_modules.specs.Loaded.{listed_in, modules_in, tables_of};

use held_processes::Users;
use mod_table::{Old, Table};
use proc_table::Pid;
use relup_instruction::{Change, Conversion, Direction};
use script_progress::{Cause, Failure, Progress, Sources};
use std::alloc::{AllocError, Global};

// Changes of code, one after another.
pub(crate) fn change_code(
    progress: &mut Progress,
    alloc: Global,
    sources: &Sources<'_>,
    conversion: &Conversion,
) -> Result<(), Failure>
    ensures { (past : Past) (v : View) (early : Bool)
        → HasDone past (progress_of progress.old) progress.old.tree v
        → CarriesOut (site_of sources.now) past early (code_change (conversion_of conversion.now))
        result (progress_of progress.new) progress.new.tree v v }
{
    let mode = conversion.mode.unwrap_or(Direction::Up);
    for (i, change) in conversion.changes.iter().enumerate() {
        change_once(progress, alloc, sources, mode, i, change)?;
    }
    Ok(())
}

// One change of code, after so many others.
fn change_once(
    progress: &mut Progress,
    alloc: Global,
    sources: &Sources<'_>,
    mode: Direction,
    number: usize,
    change: &Change,
) -> Result<(), Failure>
    ensures { (past : Past) (v : View) → HasDone past (progress_of progress.old) progress.old.tree v
        → ChangesOnce (site_of sources.now) past mode number (change_of change.now)
        result (progress_of progress.new) progress.new.tree v }
{
    change_processes(progress, alloc, sources, mode, number, change)?;
    match change_supervisors(progress, alloc, change.name.as_str()) {
        Ok(()) => Ok(()),
        Err(_) => Err(Failure {
            cause: Cause::NoMemory,
            modules: number,
            slot: Pid::count(),
        }),
    }
}

// The supervisors of the module get the children of its table, where that is one of a supervisor.
fn change_supervisors(
    progress: &mut Progress,
    alloc: Global,
    module: &str,
) -> Result<(), AllocError>
    ensures held { progress.new.held ≡ progress.old.held }
    ensures fetched { progress.new.fetched ≡ progress.old.fetched }
    ensures next { progress.new.next ≡ progress.old.next }
    ensures changed { OnOk result (progress.new.tree ≡ supervisors_changed «module».now
        (tables_of (modules_in progress.old.next) «module».now) progress.old.tree) }
    ensures kept { OnErr result (progress.new.tree ≡ progress.old.tree) }
    ensures asks { OnErr result (is_super
        (tables_of (modules_in progress.old.next) «module».now) ≡ true) }
{
    match progress.next.table(module) {
        Some(Table::Super(table)) => progress.tree.change_children(alloc, module, table),
        Some(Table::Worker(_)) | None => Ok(()),
    }
}

// The processes of the module are changed. It takes no memory where none of them is held.
fn change_processes(
    progress: &mut Progress,
    alloc: Global,
    sources: &Sources<'_>,
    mode: Direction,
    number: usize,
    change: &Change,
) -> Result<(), Failure>
    ensures { (past : Past) (v : View) → HasDone past (progress_of progress.old) progress.old.tree v
        → ChangesProcesses (site_of sources.now) past mode number (change_of change.now)
        result (progress_of progress.new) progress.new.tree v }
{
    let module = change.name.as_str();
    let users = Users {
        tree: &progress.tree,
        module,
    };
    if !progress.held.holds(&users) {
        return Ok(());
    }
    match old_version(progress, alloc, sources, mode, module) {
        Ok(Some(old)) => change_from(progress, &old, number, change),
        Ok(None) => Err(Failure {
            cause: Cause::NoChange,
            modules: number,
            slot: 0,
        }),
        Err(_) => Err(Failure {
            cause: Cause::NoMemory,
            modules: number,
            slot: 0,
        }),
    }
}

// Changes the code of the module's processes from this version.
fn change_from(
    progress: &mut Progress,
    old: &Old,
    number: usize,
    change: &Change,
) -> Result<(), Failure>
    ensures { (s : script.Site) (mode : Way) (past : Past) (v : View)
        → HasDone past (progress_of progress.old) progress.old.tree v
        → Some (old_of old.now) ≡ old_version s mode (change_of change.now).name past.run
        → ChangesProcesses s past mode number (change_of change.now)
        result (progress_of progress.new) progress.new.tree v }
{
    let users = Users {
        tree: &progress.tree,
        module: change.name.as_str(),
    };
    match progress.held.change(&users, old, &change.extra) {
        Ok(()) => Ok(()),
        Err(undone) => Err(Failure {
            cause: Cause::NoChange,
            modules: number,
            slot: undone.slot,
        }),
    }
}

// What the code of a module is changed from.
fn old_version(
    progress: &Progress,
    alloc: Global,
    sources: &Sources<'_>,
    mode: Direction,
    name: &str,
) -> Result<Option<Old>, AllocError>
    ensures found { IfOk result (λ o. (past : Past) (v : View)
        → HasDone past (progress_of progress.now) progress.now.tree v
        → option_map old_of o ≡ old_version (site_of sources.now) mode name.now past.run) }
    ensures asks { OnErr result ((past : Past) (v : View)
        → HasDone past (progress_of progress.now) progress.now.tree v
        → is_some (old_version (site_of sources.now) mode name.now past.run) ≡ true) }
{
    match mode {
        Direction::Up => match sources.loaded.vsn(name) {
            Some(vsn) => Ok(Some(Old::Up(String::from_str(alloc, vsn)?))),
            None => Ok(None),
        },
        Direction::Down => match newest_vsn(progress, name) {
            Some(vsn) => Ok(Some(Old::Down(String::from_str(alloc, vsn)?))),
            None => Ok(None),
        },
    }
}

// The version of the module that was fetched, or else of the one that is loaded.
fn newest_vsn<'a>(progress: &'a Progress, name: &str) -> Option<&'a str>
    ensures { option_map (λ v. v.now) result
        ≡ option_or (version_in name.now (listed_in progress.now.fetched))
        (version_in name.now (listed_in progress.now.next)) }
{
    match progress.fetched.vsn(name) {
        Some(vsn) => Some(vsn),
        None => progress.next.vsn(name),
    }
}
