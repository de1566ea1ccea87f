//! `resume`, `stop` and `start`: operations on the processes of some modules that take no memory and don't fail.
ghost use Rattle.std.specs.Prelude.{◌<◌, [], Ok, false, length, map, slice_index_or, string_bytes};
ghost use Rattle.held_processes.specs.Course.{on_module};
ghost use Rattle.held_processes.specs.Following.{AllFollow, AreLonger, Followed};
ghost use Rattle.held_processes.specs.Operations.{modules_by_slot};
ghost use Rattle.relup_exec.specs.Plain.{plain_instruction, plain_operation};
ghost use Rattle.script_progress.specs.Script as script;
ghost use Rattle.script_progress.specs.Script.{on_each};
ghost use Rattle.script_progress.specs.Steps.{CarriesOut, HasDone, Past, progress_of};

use held_processes::{HeldProcesses, Users};
use script_progress::{Progress, Tree};
use std::sync::Wait;
use table_access::{Seating, TableAccess};

/// What is done to processes without asking for memory.
#[derive(Clone, Copy)]
pub(crate) enum Plain {
    Resume,
    Stop,
    Start,
}

// This is done to the processes of these modules.
pub(crate) fn do_plain<R: Wait, S: Seating>(
    progress: &mut Progress,
    rt: &R,
    access: &mut TableAccess<'_, S>,
    plain: Plain,
    names: &[String],
)
    ghost past: { Past }
    requires done { HasDone past (progress_of progress.old) progress.old.tree access.old }
    ensures longer { AreLonger access.old access.new }
    ensures carried { (s : script.Site) → CarriesOut {X = Unit {0}} s past false
        (plain_instruction plain (map string_bytes names.now)) (Ok tt)
        (progress_of progress.new) progress.new.tree access.old access.new }
{
    do_all(rt, access, &progress.tree, &mut progress.held, plain, names);
}

// Carries out an operation on the processes of these modules, one module after another.
fn do_all<R: Wait, S: Seating>(
    rt: &R,
    access: &mut TableAccess<'_, S>,
    tree: &Tree,
    held: &mut HeldProcesses,
    plain: Plain,
    names: &[String],
)
    ghost followed: { Followed }
    requires follow { AllFollow followed.first followed.courses held.old access.old }
    ensures longer { AreLonger access.old access.new }
    ensures done { AllFollow followed.first (on_each (plain_operation plain)
        (map string_bytes names.now) (modules_by_slot tree.now) followed.courses)
        held.new access.new }
{
    for at in 0..names.len() {
        do_next(rt, access, tree, held, plain, names, at);
    }
}

// Carries out the operation on the processes of the module at this place.
fn do_next<R: Wait, S: Seating>(
    rt: &R,
    access: &mut TableAccess<'_, S>,
    tree: &Tree,
    held: &mut HeldProcesses,
    plain: Plain,
    names: &[String],
    at: usize,
)
    ghost followed: { Followed }
    requires inside { at < length names.now }
    requires follow { AllFollow followed.first followed.courses held.old access.old }
    ensures longer { AreLonger access.old access.new }
    ensures done { AllFollow followed.first (on_module (modules_by_slot tree.now)
        (slice_index_or (map string_bytes names.now) at []) (plain_operation plain)
        followed.courses) held.new access.new }
{
    let name = &names[at];
    let module = name.as_str();
    do_once(rt, access, held, plain, &Users { tree, module });
}

// Carries out the operation on the processes of these users.
fn do_once<R: Wait, S: Seating>(
    rt: &R,
    access: &mut TableAccess<'_, S>,
    held: &mut HeldProcesses,
    plain: Plain,
    users: &Users<'_>,
)
    ghost followed: { Followed }
    requires follow { AllFollow followed.first followed.courses held.old access.old }
    ensures longer { AreLonger access.old access.new }
    ensures done { AllFollow followed.first (on_module (modules_by_slot users.now.tree.now)
        users.now.module.now (plain_operation plain) followed.courses) held.new access.new }
{
    match plain {
        Plain::Resume => held.resume(access, users),
        Plain::Stop => held.stop(rt, access, users),
        Plain::Start => held.start(rt, access, users),
    }
}
