//! What is done to the process of one slot.
ghost use Rattle.std.specs.Prelude.{◌≡◌, OnErr, None, Some, true, not, is_some};
ghost use Rattle.erl_term.specs.Value.{value_of};
ghost use Rattle.worker_table.specs.InMemory.{old_of};
ghost use Rattle.held_processes.specs.Course.{add_alone, if_held, course_after};
ghost use Rattle.held_processes.specs.Course.Operation.{suspend, load, resume, stop, start, give_up};
ghost use Rattle.held_processes.specs.Following.{AreLonger};
ghost use Rattle.held_processes.specs.InMemory.{operation_of, takes_memory};
ghost use Rattle.held_processes.specs.Operations.{is_held};
ghost use Rattle.held_processes.specs.Slots.{SlotPast, IsFollowed, IsLookedAt, Steps, StepsBy, ChangesAt, value_with};
ghost use Rattle.proc_history.specs.Values.{up_at};
ghost use Rattle.proc_table.specs.Views.{seen};
ghost use Rattle.proc_history.specs.Events.Event.{loaded};

use crate::held_process::{HeldProcess, Hold};
use erl_term::Term;
use mod_table::{Old, Worker};
use proc_table::{Entry, Pid, Standing, Value};
use std::alloc::{AllocError, Global};
use std::mem;
use std::sync::Wait;
use table_access::{Seating, TableAccess};

/// What is done to a process, for which it is held if it isn't yet.
#[derive(Clone, Copy)]
pub(crate) enum Step<'a> {
    /// The process is held until it is resumed.
    Suspend(Global),
    /// The process gets this table. One that isn't held yet is held until the point of no return, or for the load alone.
    Load(Global, &'a Worker, bool),
    Stop,
    Start,
}

/// An operation on the processes of a module failed in this slot. It was done in the slots below.
#[derive(Clone, Copy)]
pub struct Undone {
    pub slot: usize,
}

/// Carries out a step on the process of the slot.
pub(crate) fn perform<R: Wait, S: Seating>(
    rt: &R,
    access: &mut TableAccess<'_, S>,
    pid: Pid,
    place: &mut Option<HeldProcess>,
    step: Step<'_>,
) -> Result<(), AllocError>
    ghost past: { SlotPast }
    requires followed { IsFollowed past pid.slot past.course access.old place.old }
    ensures done { StepsBy past pid.slot (operation_of step.entry)
        access.old result place.new access.new }
    ensures failed { OnErr result (takes_memory step.entry past.course.hold ≡ true) }
    ensures longer { AreLonger access.old access.new }
{
    match step {
        Step::Suspend(alloc) => suspend(rt, alloc, access, pid, place),
        Step::Load(alloc, worker, keep) => load(rt, alloc, access, pid, place, worker, keep),
        Step::Stop => Ok(stop(rt, access, pid, place)),
        Step::Start => Ok(start(rt, access, pid, place)),
    }
}

fn suspend<R: Wait, S: Seating>(
    rt: &R,
    alloc: Global,
    access: &mut TableAccess<'_, S>,
    pid: Pid,
    place: &mut Option<HeldProcess>,
) -> Result<(), AllocError>
    ghost past: { SlotPast }
    requires followed { IsFollowed past pid.slot past.course access.old place.old }
    ensures done { StepsBy past pid.slot suspend access.old result place.new access.new }
    ensures free { OnErr result (not (is_held past.course.hold) ≡ true) }
    ensures longer { AreLonger access.old access.new }
{
    match place {
        Some(process) => process.hold = Hold::UntilResumed,
        None => {
            let process = HeldProcess::take(rt, alloc, access, pid, Hold::UntilResumed)?;
            put(place, process);
        }
    }
    Ok(())
}

fn load<R: Wait, S: Seating>(
    rt: &R,
    alloc: Global,
    access: &mut TableAccess<'_, S>,
    pid: Pid,
    place: &mut Option<HeldProcess>,
    worker: &Worker,
    keep: bool,
) -> Result<(), AllocError>
    ghost past: { SlotPast }
    requires followed { IsFollowed past pid.slot past.course access.old place.old }
    ensures done { StepsBy past pid.slot (load keep worker.now)
        access.old result place.new access.new }
    ensures longer { AreLonger access.old access.new }
{
    let copy = worker.copy(alloc)?;
    match place {
        Some(process) => process.held.load(copy),
        None if keep => {
            let mut process = HeldProcess::take(rt, alloc, access, pid, Hold::UntilPoint)?;
            process.held.load(copy);
            put(place, process);
        }
        None => load_alone(rt, access, pid, worker, copy),
    }
    Ok(())
}

// The table of a process that isn't held, and its copy.
fn load_alone<R: Wait, S: Seating>(
    rt: &R,
    access: &mut TableAccess<'_, S>,
    pid: Pid,
    worker: &Worker,
    copy: Worker,
)
    ghost past: { SlotPast }
    requires free { IsFollowed past pid.slot past.course access.old None }
    requires same { copy ≡ worker.now }
    ensures done { Steps past pid.slot (add_alone (loaded worker.now) past.course)
        access.old None access.new }
    ensures longer { AreLonger access.old access.new }
{
    let mut held = access.hold(rt, pid);
    held.load(copy);
    access.release(held, &[Entry::Loaded(worker)]);
}

fn stop<R: Wait, S: Seating>(
    rt: &R,
    access: &mut TableAccess<'_, S>,
    pid: Pid,
    place: &mut Option<HeldProcess>,
)
    ghost past: { SlotPast }
    requires followed { IsFollowed past pid.slot past.course access.old place.old }
    ensures done { Steps past pid.slot (course_after stop past.course)
        access.old place.new access.new }
    ensures longer { AreLonger access.old access.new }
{
    match place {
        Some(process) => process.held.stop(),
        None => {
            let mut held = access.hold(rt, pid);
            held.stop();
            access.let_go(held);
        }
    }
}

fn start<R: Wait, S: Seating>(
    rt: &R,
    access: &mut TableAccess<'_, S>,
    pid: Pid,
    place: &mut Option<HeldProcess>,
)
    ghost past: { SlotPast }
    requires followed { IsFollowed past pid.slot past.course access.old place.old }
    ensures done { Steps past pid.slot (course_after start past.course)
        access.old place.new access.new }
    ensures longer { AreLonger access.old access.new }
{
    match place {
        Some(process) => process.held.start(),
        None => {
            let mut held = access.hold(rt, pid);
            held.start();
            access.let_go(held);
        }
    }
}

/// Changes the code of the process, if it is held and up. It is false, and nothing changes, where its table has no row for that.
pub(crate) fn change(place: &mut Option<HeldProcess>, old: &Old, extra: &Term) -> bool
    ensures { ChangesAt (old_of old.now) (value_of extra.now) place.old result place.new }
{
    match place {
        Some(process) => process.held.change(old, extra),
        None => true,
    }
}

/// Whether the process of the slot is up. One that isn't held is held for the look alone.
pub(crate) fn is_up<R: Wait, S: Seating>(
    rt: &R,
    access: &mut TableAccess<'_, S>,
    pid: Pid,
    place: &Option<HeldProcess>,
) -> bool
    ghost past: { SlotPast }
    requires followed { IsFollowed past pid.slot past.course access.old place.now }
    ensures followed { Steps past pid.slot past.course access.old place.now access.new }
    ensures reported { result ≡ is_some
        (up_at (value_with (seen access.new pid.slot) past.course).now) }
    ensures looked { IsLookedAt past pid.slot access.old access.new }
    ensures longer { AreLonger access.old access.new }
{
    match place {
        Some(process) => is_up_in(process.held.value()),
        None => {
            let held = access.hold(rt, pid);
            let up = is_up_in(held.value());
            access.release(held, &[]);
            up
        }
    }
}

fn is_up_in(value: &Value) -> bool
    ensures { result ≡ is_some (up_at value.entry.now.now) }
{
    match &value.now {
        Some(process) => matches!(process.standing, Standing::Up),
        None => false,
    }
}

/// Lets the process go, if it is held.
pub(crate) fn let_go<S: Seating>(
    access: &mut TableAccess<'_, S>,
    slot: usize,
    place: &mut Option<HeldProcess>,
)
    ghost past: { SlotPast }
    requires followed { IsFollowed past slot past.course access.old place.old }
    ensures done { Steps past slot (course_after resume past.course)
        access.old place.new access.new }
    ensures longer { AreLonger access.old access.new }
{
    match place.take() {
        Some(process) => process.let_go(access),
        None => {}
    }
}

/// The process is given up, and let go, if it is held.
pub(crate) fn give_up<S: Seating>(
    access: &mut TableAccess<'_, S>,
    slot: usize,
    place: &mut Option<HeldProcess>,
)
    ghost past: { SlotPast }
    requires followed { IsFollowed past slot past.course access.old place.old }
    ensures done { Steps past slot
        (if_held past.course.hold (course_after give_up past.course) past.course)
        access.old place.new access.new }
    ensures longer { AreLonger access.old access.new }
{
    match place.take() {
        Some(mut process) => {
            process.held.give_up();
            process.let_go(access);
        }
        None => {}
    }
}

// The process is held now.
fn put(place: &mut Option<HeldProcess>, process: HeldProcess)
    requires { place.old ≡ None }
    ensures { place.new ≡ Some process }
{
    let was = mem::replace(place, Some(process));
    let None = was else {
        unreachable!();
    };
}
