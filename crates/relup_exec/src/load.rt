//! `load`: a module that was fetched is loaded, and processes get its table.
ghost use Rattle.held_processes.specs.Operations.{is_used, modules_by_slot};
ghost use Rattle.relup_instruction.specs.Instruction.Instruction.{load};
ghost use Rattle.relup_instruction.specs.Instruction.{purging_of};
ghost use Rattle.script_progress.specs.Script as script;
ghost use Rattle.script_progress.specs.Script.{worker_in};
ghost use Rattle.script_progress.specs.Steps.{CarriesOut, HasDone, Past, progress_of};
ghost use Rattle.relup_exec.specs.Steps.{GivesTable};
ghost use Rattle.std.specs.Option.{option_map};
ghost use Rattle.std.specs.Prelude.{◌≡◌, IsSome};
ghost use Rattle.loaded_modules.specs.Loaded.{listed_in, module_named};
ghost use Rattle.held_processes.specs.Following.{AreLonger};

use held_processes::Users;
use loaded_modules::Loaded;
use mod_table::{Table, Worker};
use proc_table::Pid;
use relup_instruction::Purging;
use script_progress::{Cause, Failure, Progress, failure_at_start};
use std::alloc::Global;
use std::sync::Wait;
use table_access::{Seating, TableAccess};

// The module that was fetched is loaded. Before the point of no return its processes are held until then.
pub(crate) fn load<R: Wait, S: Seating>(
    progress: &mut Progress,
    rt: &R,
    alloc: Global,
    access: &mut TableAccess<'_, S>,
    early: bool,
    purging: &Purging,
) -> Result<(), Failure>
    ghost past: { Past }
    requires done { HasDone past (progress_of progress.old) progress.old.tree access.old }
    ensures longer { AreLonger access.old access.new }
    ensures carried { (s : script.Site) → CarriesOut s past early (load (purging_of purging.now))
        result (progress_of progress.new) progress.new.tree access.old access.new }
{
    match progress.fetched.vsn(purging.name.as_str()) {
        Some(_) => load_fetched(progress, rt, alloc, access, early, purging),
        None => Err(failure_at_start(Cause::NotFetched)),
    }
}

// Loads a module that was fetched.
fn load_fetched<R: Wait, S: Seating>(
    progress: &mut Progress,
    rt: &R,
    alloc: Global,
    access: &mut TableAccess<'_, S>,
    early: bool,
    purging: &Purging,
) -> Result<(), Failure>
    ghost past: { Past }
    requires done { HasDone past (progress_of progress.old) progress.old.tree access.old }
    requires fetched { IsSome (module_named (purging_of purging.now).name past.run.fetched) }
    ensures longer { AreLonger access.old access.new }
    ensures carried { (s : script.Site) → CarriesOut s past early (load (purging_of purging.now))
        result (progress_of progress.new) progress.new.tree access.old access.new }
{
    give_table(progress, rt, alloc, access, early, purging)?;
    let module = purging.name.as_str();
    match progress.next.load_from(alloc, &progress.fetched, module) {
        Ok(_) => Ok(()),
        Err(_) => Err(Failure {
            cause: Cause::NoMemory,
            modules: 0,
            slot: Pid::count(),
        }),
    }
}

// The processes of the module get the table that was fetched.
fn give_table<R: Wait, S: Seating>(
    progress: &mut Progress,
    rt: &R,
    alloc: Global,
    access: &mut TableAccess<'_, S>,
    early: bool,
    purging: &Purging,
) -> Result<(), Failure>
    ghost past: { Past }
    requires done { HasDone past (progress_of progress.old) progress.old.tree access.old }
    ensures longer { AreLonger access.old access.new }
    ensures fetched { progress.new.fetched ≡ progress.old.fetched }
    ensures next { progress.new.next ≡ progress.old.next }
    ensures tree { progress.new.tree ≡ progress.old.tree }
    ensures given { GivesTable past early (purging_of purging.now).name
        result progress.new.held access.new }
{
    let users = Users {
        module: purging.name.as_str(),
        tree: &progress.tree,
    };
    let Some(worker) = worker_in(&progress.fetched, users.module) else {
        return if is_used(&users) {
            Err(failure_at_start(Cause::NoTable))
        } else {
            Ok(())
        };
    };
    match progress.held.load(rt, alloc, access, &users, worker, early) {
        Ok(()) => Ok(()),
        Err(undone) => Err(Failure {
            cause: Cause::NoMemory,
            modules: 0,
            slot: undone.slot,
        }),
    }
}

// The table of a worker that was fetched for a module.
fn worker_in<'a>(fetched: &'a Loaded, name: &str) -> Option<&'a Worker>
    ensures { option_map (λ w. w.now) result
        ≡ worker_in (module_named name.now (listed_in fetched.now)) }
{
    match fetched.table(name) {
        Some(Table::Worker(worker)) => Some(worker),
        Some(Table::Super(_)) => None,
        None => None,
    }
}

// Whether a process runs the module.
fn is_used(users: &Users<'_>) -> bool
    ensures { result ≡ is_used (modules_by_slot users.now.tree.now) users.now.module.now }
{
    let used = users.by_slot();
    for slot in 0..Pid::count() {
        if users.include(&used, slot) {
            return true;
        }
    }
    false
}
