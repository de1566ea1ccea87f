//! An application that a script stops and starts again, while processes of it are held.
ghost use Rattle.std.specs.Prelude.{◌≡◌, List};
ghost use Rattle.held_processes.specs.Following.{AllFollow, Followed, HoldsNothing};
ghost use Rattle.sup_tree.specs.Tree.{App as Application};

use crate::node::push_call;
use held_processes::{AppName, HeldProcesses, Users};
use loaded_modules::Loaded;
use proc_table::{HandlerSeat, Pass, Pid, ProcTable};
use rel_files::App;
use std::alloc::Global;
use std::marker::Brand;
use std::sync::Wait;
use sup_tree::Tree;
use table_access::{Lent, Seating, TableAccess};
use text_cases::Answer;

/// An application, what is loaded, the module of processes that are held, and a process that a client calls meanwhile.
#[derive(Clone, Copy)]
pub(crate) struct Restart<'a> {
    pub(crate) alloc: Global,
    pub(crate) app: &'a App,
    pub(crate) loaded: &'a Loaded,
    pub(crate) module: &'a str,
    pub(crate) pid: Pid,
}

/// Stops the application and starts it again. Appends what the client is answered.
pub(crate) fn restart_app<R: Wait>(
    rt: &R,
    table: &ProcTable,
    seat: &mut HandlerSeat,
    pass: &mut Pass,
    tree: &mut Tree,
    restart: &Restart<'_>,
    answer: &mut Answer,
)
    requires table { seat.old.table ≡ table.now }
    requires pass { pass.old.table ≡ table.now }
    requires nothing { HoldsNothing seat.old.view }
    ensures table { seat.new.table ≡ seat.old.table }
    ensures pass { pass.new.table ≡ pass.old.table }
{
    let lent = Lent { table, seat };
    let _ = restart_app_at::<R, Brand>(rt, lent, pass, tree, restart, answer);
}

fn restart_app_at<'t, R: Wait, S: Seating>(
    rt: &R,
    lent: Lent<'t>,
    pass: &mut Pass,
    tree: &mut Tree,
    restart: &Restart<'_>,
    answer: &mut Answer,
) -> &'t mut HandlerSeat
    requires name { lent.seat.ghost_name ≡ S.name }
    requires table { (lent.seat.now.table ≡ S.table) × (lent.table.now ≡ S.table) }
    requires pass { pass.old.table ≡ lent.table.now }
    requires nothing { HoldsNothing lent.seat.now.view }
    ensures name { result.ghost_name ≡ S.name }
    ensures table { result.now.table ≡ S.table }
    ensures pass { pass.new.table ≡ pass.old.table }
{
    let table = lent.table;
    let mut access: TableAccess<'t, S> = TableAccess::new(lent);
    begin(rt, &mut access, table, pass, tree, restart, answer);
    access.into_seat()
}

fn begin<R: Wait, S: Seating>(
    rt: &R,
    access: &mut TableAccess<'_, S>,
    table: &ProcTable,
    pass: &mut Pass,
    tree: &mut Tree,
    restart: &Restart<'_>,
    answer: &mut Answer,
)
    requires pass { pass.old.table ≡ table.now }
    requires nothing { HoldsNothing access.old }
    ensures pass { pass.new.table ≡ pass.old.table }
{
    let Ok(held) = HeldProcesses::new(restart.alloc) else {
        return answer.note_no_memory();
    };
    suspend(rt, access, table, pass, tree, held, restart, answer);
}

fn suspend<R: Wait, S: Seating>(
    rt: &R,
    access: &mut TableAccess<'_, S>,
    table: &ProcTable,
    pass: &mut Pass,
    tree: &mut Tree,
    mut held: HeldProcesses,
    restart: &Restart<'_>,
    answer: &mut Answer,
)
    ghost followed: { Followed }
    requires pass { pass.old.table ≡ table.now }
    requires follow { AllFollow followed.first followed.courses held access.old }
    ensures pass { pass.new.table ≡ pass.old.table }
{
    let users = Users {
        tree,
        module: restart.module,
    };
    match held.suspend(rt, restart.alloc, access, &users) {
        Ok(()) => stop(rt, access, table, pass, tree, held, restart, answer),
        Err(_) => {
            answer.note_no_memory();
            held.roll_back(access);
        }
    }
}

fn stop<R: Wait, S: Seating>(
    rt: &R,
    access: &mut TableAccess<'_, S>,
    table: &ProcTable,
    pass: &mut Pass,
    tree: &mut Tree,
    mut held: HeldProcesses,
    restart: &Restart<'_>,
    answer: &mut Answer,
)
    ghost before: { Followed × List Application }
    requires pass { pass.old.table ≡ table.now }
    requires apps { tree.old ≡ before.1 }
    requires follow { AllFollow before.0.first before.0.courses held access.old }
    ensures pass { pass.new.table ≡ pass.old.table }
{
    push_call(table, pass, restart.pid, 1, answer);
    let app = AppName {
        name: restart.app.name.as_str(),
    };
    held.stop_app(rt, access, tree, &app);
    push_call(table, pass, restart.pid, 1, answer);
    start(rt, access, table, pass, tree, held, restart, answer);
}

fn start<R: Wait, S: Seating>(
    rt: &R,
    access: &mut TableAccess<'_, S>,
    table: &ProcTable,
    pass: &mut Pass,
    tree: &mut Tree,
    held: HeldProcesses,
    restart: &Restart<'_>,
    answer: &mut Answer,
)
    ghost followed: { Followed }
    requires pass { pass.old.table ≡ table.now }
    requires follow { AllFollow followed.first followed.courses held access.old }
    ensures pass { pass.new.table ≡ pass.old.table }
{
    let alloc = restart.alloc;
    let started = held.start_app(rt, alloc, access, tree, restart.app, restart.loaded);
    held.roll_back(access);
    match started {
        Ok(()) => push_first(table, pass, tree, restart, answer),
        Err(error) => answer.push_shown(&error),
    }
}

// A call of the first process of the application.
fn push_first(
    table: &ProcTable,
    pass: &mut Pass,
    tree: &Tree,
    restart: &Restart<'_>,
    answer: &mut Answer,
)
    requires { pass.old.table ≡ table.now }
    ensures { pass.new.table ≡ pass.old.table }
{
    match tree.find(restart.app.name.as_str(), "a") {
        Some(pid) => push_call(table, pass, pid, 1, answer),
        None => answer.push(", not started"),
    }
}
