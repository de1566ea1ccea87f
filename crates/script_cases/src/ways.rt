//! What a script does to the processes of a module, one operation after another.
ghost use Rattle.std.specs.Prelude.{◌≡◌};
ghost use Rattle.held_processes.specs.Following.{AllFollow, Followed, HoldsNothing};

use crate::node::push_call;
use erl_term::Term;
use held_processes::{HeldProcesses, Users};
use mod_table::{Old, Worker};
use proc_table::{HandlerSeat, Pass, Pid, ProcTable};
use std::alloc::Global;
use std::marker::Brand;
use std::sync::Wait;
use table_access::{Lent, Seating, TableAccess};
use text_cases::Answer;

/// What a script does.
#[derive(Clone, Copy, PartialEq)]
pub(crate) enum Way {
    /// The script suspends, loads, changes and resumes.
    Resumed,
    /// The script suspends, loads and changes, and ends.
    Finished,
    /// The script suspends, loads and changes, and goes back.
    Back,
    /// The script suspends, loads, and asks for a change for which there is no row.
    WithoutRow,
    /// The script loads, and passes the point of no return.
    Kept,
    /// The script loads, with nothing held until the point.
    Alone,
    /// The script stops and starts.
    Restarted,
    /// The script suspends, and stops and starts the application.
    AppRestarted,
}

/// A script, and the process that a client calls meanwhile.
#[derive(Clone, Copy)]
pub(crate) struct Upgrade<'a> {
    pub(crate) alloc: Global,
    pub(crate) users: Users<'a>,
    pub(crate) worker: &'a Worker,
    pub(crate) old: &'a Old,
    pub(crate) extra: &'a Term,
    pub(crate) way: Way,
    pub(crate) pid: Pid,
}

/// Carries out the script. Appends what the client is answered meanwhile, and why it goes back.
pub(crate) fn carry_out<R: Wait>(
    rt: &R,
    table: &ProcTable,
    seat: &mut HandlerSeat,
    pass: &mut Pass,
    upgrade: &Upgrade<'_>,
    answer: &mut Answer,
)
    requires table { seat.old.table ≡ table.now }
    requires pass { pass.old.table ≡ table.now }
    requires nothing { HoldsNothing seat.old.view }
    ensures table { seat.new.table ≡ seat.old.table }
    ensures pass { pass.new.table ≡ pass.old.table }
{
    let lent = Lent { table, seat };
    let _ = carry_out_at::<R, Brand>(rt, lent, pass, upgrade, answer);
}

fn carry_out_at<'t, R: Wait, S: Seating>(
    rt: &R,
    lent: Lent<'t>,
    pass: &mut Pass,
    upgrade: &Upgrade<'_>,
    answer: &mut Answer,
) -> &'t mut HandlerSeat
    requires name { lent.seat.ghost_name ≡ S.name }
    requires table { (lent.seat.now.table ≡ S.table) × (lent.table.now ≡ S.table) }
    requires pass { pass.old.table ≡ lent.table.now }
    requires nothing { HoldsNothing lent.seat.now.view }
    ensures name { result.ghost_name ≡ S.name }
    ensures table { result.now.table ≡ S.table }
    ensures pass { pass.new.table ≡ pass.old.table }
{
    let table = lent.table;
    let mut access: TableAccess<'t, S> = TableAccess::new(lent);
    begin(rt, &mut access, table, pass, upgrade, answer);
    access.into_seat()
}

fn begin<R: Wait, S: Seating>(
    rt: &R,
    access: &mut TableAccess<'_, S>,
    table: &ProcTable,
    pass: &mut Pass,
    upgrade: &Upgrade<'_>,
    answer: &mut Answer,
)
    requires pass { pass.old.table ≡ table.now }
    requires nothing { HoldsNothing access.old }
    ensures pass { pass.new.table ≡ pass.old.table }
{
    let Ok(held) = HeldProcesses::new(upgrade.alloc) else {
        return answer.note_no_memory();
    };
    match upgrade.way {
        Way::Kept | Way::Alone => load(rt, access, table, pass, held, upgrade, answer),
        Way::Restarted => stop(rt, access, table, pass, held, upgrade, answer),
        _ => suspend(rt, access, table, pass, held, upgrade, answer),
    }
}

fn suspend<R: Wait, S: Seating>(
    rt: &R,
    access: &mut TableAccess<'_, S>,
    table: &ProcTable,
    pass: &mut Pass,
    mut held: HeldProcesses,
    upgrade: &Upgrade<'_>,
    answer: &mut Answer,
)
    ghost followed: { Followed }
    requires pass { pass.old.table ≡ table.now }
    requires follow { AllFollow followed.first followed.courses held access.old }
    ensures pass { pass.new.table ≡ pass.old.table }
{
    match held.suspend(rt, upgrade.alloc, access, &upgrade.users) {
        Ok(()) => load(rt, access, table, pass, held, upgrade, answer),
        Err(_) => {
            answer.note_no_memory();
            held.roll_back(access);
        }
    }
}

fn load<R: Wait, S: Seating>(
    rt: &R,
    access: &mut TableAccess<'_, S>,
    table: &ProcTable,
    pass: &mut Pass,
    mut held: HeldProcesses,
    upgrade: &Upgrade<'_>,
    answer: &mut Answer,
)
    ghost followed: { Followed }
    requires pass { pass.old.table ≡ table.now }
    requires follow { AllFollow followed.first followed.courses held access.old }
    ensures pass { pass.new.table ≡ pass.old.table }
{
    let keep = upgrade.way != Way::Alone;
    let alloc = upgrade.alloc;
    match held.load(rt, alloc, access, &upgrade.users, upgrade.worker, keep) {
        Ok(()) => go_on(access, table, pass, held, upgrade, keep, answer),
        Err(_) => {
            answer.note_no_memory();
            held.roll_back(access);
        }
    }
}

// The client calls after a load.
fn go_on<S: Seating>(
    access: &mut TableAccess<'_, S>,
    table: &ProcTable,
    pass: &mut Pass,
    held: HeldProcesses,
    upgrade: &Upgrade<'_>,
    _keep: bool,
    answer: &mut Answer,
)
    ghost followed: { Followed }
    requires pass { pass.old.table ≡ table.now }
    requires follow { AllFollow followed.first followed.courses held access.old }
    ensures pass { pass.new.table ≡ pass.old.table }
{
    push_call(table, pass, upgrade.pid, 1, answer);
    match upgrade.way {
        Way::Kept | Way::Alone => pass_point(access, held, upgrade),
        _ => change(access, held, upgrade, answer),
    }
}

fn change<S: Seating>(
    access: &mut TableAccess<'_, S>,
    mut held: HeldProcesses,
    upgrade: &Upgrade<'_>,
    answer: &mut Answer,
)
    ghost followed: { Followed }
    requires follow { AllFollow followed.first followed.courses held access.old }
{
    match held.change(&upgrade.users, upgrade.old, upgrade.extra) {
        Ok(()) => end(access, held, upgrade),
        Err(_) => {
            answer.push(", no row");
            held.roll_back(access);
        }
    }
}

// The end of a script that changed the code.
fn end<S: Seating>(access: &mut TableAccess<'_, S>, held: HeldProcesses, upgrade: &Upgrade<'_>)
    ghost followed: { Followed }
    requires follow { AllFollow followed.first followed.courses held access.old }
{
    match upgrade.way {
        Way::Resumed => resume(access, held, upgrade),
        Way::Finished => finish(access, held, upgrade),
        _ => held.roll_back(access),
    }
}

fn resume<S: Seating>(
    access: &mut TableAccess<'_, S>,
    mut held: HeldProcesses,
    upgrade: &Upgrade<'_>,
)
    ghost followed: { Followed }
    requires follow { AllFollow followed.first followed.courses held access.old }
{
    held.resume(access, &upgrade.users);
    finish(access, held, upgrade);
}

fn pass_point<S: Seating>(
    access: &mut TableAccess<'_, S>,
    mut held: HeldProcesses,
    upgrade: &Upgrade<'_>,
)
    ghost followed: { Followed }
    requires follow { AllFollow followed.first followed.courses held access.old }
{
    held.pass_point(access);
    finish(access, held, upgrade);
}

fn stop<R: Wait, S: Seating>(
    rt: &R,
    access: &mut TableAccess<'_, S>,
    table: &ProcTable,
    pass: &mut Pass,
    mut held: HeldProcesses,
    upgrade: &Upgrade<'_>,
    answer: &mut Answer,
)
    ghost followed: { Followed }
    requires pass { pass.old.table ≡ table.now }
    requires follow { AllFollow followed.first followed.courses held access.old }
    ensures pass { pass.new.table ≡ pass.old.table }
{
    held.stop(rt, access, &upgrade.users);
    push_call(table, pass, upgrade.pid, 1, answer);
    start(rt, access, held, upgrade);
}

fn start<R: Wait, S: Seating>(
    rt: &R,
    access: &mut TableAccess<'_, S>,
    mut held: HeldProcesses,
    upgrade: &Upgrade<'_>,
)
    ghost followed: { Followed }
    requires follow { AllFollow followed.first followed.courses held access.old }
{
    held.start(rt, access, &upgrade.users);
    finish(access, held, upgrade);
}

// By the script the caller's proof names what was done.
fn finish<S: Seating>(access: &mut TableAccess<'_, S>, held: HeldProcesses, _upgrade: &Upgrade<'_>)
    ghost followed: { Followed }
    requires follow { AllFollow followed.first followed.courses held access.old }
{
    held.finish(access);
}
