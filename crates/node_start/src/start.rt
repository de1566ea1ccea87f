//! What a boot starts.
ghost use Rattle.std.specs.Prelude.{◌≡◌, ◌≤◌, [], false, None, IfErr, IfOk, OnOk, length, map, vec_capacity};
ghost use Rattle.std.specs.List.{AllByRecursion, find};
ghost use Rattle.std.specs.Option.{option_copied, option_or};
ghost use Rattle.rel_files.specs.AppInMemory.{specification_of};
ghost use Rattle.library.specs.InMemory.{shared_of};
ghost use Rattle.library.specs.Library.{AreLibrariesOf};
ghost use Rattle.node_processes.specs.Fresh.{fresh_processes, fresh_release, started_parts};
ghost use Rattle.node_start.specs.Begun.{HaveJustBegun, fresh_beginnings, release_beginnings};
ghost use Rattle.node_start.specs.Running.{RunsOnce, started_in};
ghost use Rattle.node_start.specs.Starting.{AppsBegan, HasNoFault, HaveMemory, IsAlone, number_to_begin};
ghost use Rattle.proc_table.specs.Agrees.{slots};
ghost use Rattle.proc_table.specs.Free.{free_count};
ghost use Rattle.proc_table.specs.Views.{handler_view};
ghost use Rattle.rel_files.specs.Name.{AreDistinct};
ghost use Rattle.rel_files.specs.Release.{Application, application_of};
ghost use Rattle.rel_check.specs.Fault.{release_fault};
ghost use Rattle.rel_check.specs.Modules.{parts};
ghost use Rattle.rel_check.specs.Walk.{is_started};
ghost use Rattle.node_store.specs.State.{list_in, is_dead, IsSound};
ghost use Rattle.rel_list.specs.Status.{is_current, is_permanent};
ghost use Rattle.loaded_modules.specs.Loaded.{modules_in, tables_of};
ghost use Rattle.sup_tree.specs.Starts.{HasRoom, IsReady};
ghost use Rattle.sup_tree.specs.Tree.{app_of};
ghost use Rattle.app_members.specs.Walk.{app_fault, app_members};

use library::Library;
use loaded_modules::Loaded;
use proc_table::{HandlerSeat, ProcTable};
use rel_disk::Disk;
use rel_files::{App, RelApp, StartType};
use rel_handler::Handler;
use rel_list::ListedRelease;
use std::alloc::{AllocError, Global};
use std::marker::Brand;
use std::rc::Rc;
use std::sync::Wait;
use sup_tree::{MembersError, NewApp, StartedApp, Tree, prepare_app};
use table_access::{Lent, Seating, TableAccess};

/// What was started: the applications, and the modules that are loaded.
#[derive(Drop)]
pub struct Started {
    /// The started applications.
    pub tree: Tree,
    /// The loaded modules.
    pub loaded: Loaded,
}

/// Starts the release that runs after a boot, in a new table of processes (OTP: init(3), a boot script): its applications in
/// order, each with its processes, and the modules of all its libraries are loaded. It is refused for memory alone: all memory of
/// all applications is taken before the first process begins.
pub fn start_running<D: Disk, R: Wait>(
    rt: &R,
    alloc: Global,
    handler: &Handler<D>,
    table: &ProcTable,
    seat: &mut HandlerSeat,
) -> Result<Started, AllocError>
    requires sound { IsSound D.seen D.may_leave handler.now }
    requires works { is_dead handler.now ≡ false }

    // A boot of whatever a crash leaves from now on starts no one-shot.
    requires once { RunsOnce D.may_leave handler.now }

    requires table { seat.old.table ≡ table.now }

    // Nothing has begun in the table: each history is empty.
    requires new { seat.old.view ≡ handler_view slots }

    ensures table { seat.new.table ≡ table.now }
    ensures alone { IsAlone seat.new.view }
    ensures fresh { IfOk result (λ s.
        started_in s seat.new.view ≡ fresh_processes (list_in handler.now)) }

    // Each of its processes has begun in the table once, and nothing else has happened there.
    ensures begun { OnOk result
        (HaveJustBegun (fresh_beginnings (list_in handler.now)) seat.new.view) }

    // Where memory is refused, no process has begun, and nothing was added to any history.
    ensures refused { IfErr result (λ _. seat.new.view ≡ seat.old.view) }
{
    let Ok(list) = handler.which_releases() else {
        unreachable!();
    };
    match running_of(list.releases()) {
        Some(listed) => start_release(
            rt,
            alloc,
            table,
            seat,
            listed.release.apps.as_slice(),
            listed.libraries.as_slice(),
        ),
        None => start_release(rt, alloc, table, seat, &[], &[]),
    }
}

// Starts a release of these applications, with their libraries in the same order.
fn start_release<R: Wait>(
    rt: &R,
    alloc: Global,
    table: &ProcTable,
    seat: &mut HandlerSeat,
    apps: &[RelApp],
    libraries: &[Rc<Library>],
) -> Result<Started, AllocError>
    requires libraries { AreLibrariesOf (map application_of apps.now)
        (map shared_of libraries.now) }
    requires tested { release_fault (map application_of apps.now)
        (map shared_of libraries.now) ≡ None }
    requires distinct { AreDistinct (map (λ (a : Application). a.name)
        (map application_of apps.now)) }
    requires table { seat.old.table ≡ table.now }
    requires new { seat.old.view ≡ handler_view slots }
    ensures table { seat.new.table ≡ table.now }
    ensures alone { IsAlone seat.new.view }
    ensures fresh { IfOk result (λ s. started_in s seat.new.view
        ≡ fresh_release (map application_of apps.now) (map shared_of libraries.now)) }
    ensures begun { OnOk result (HaveJustBegun
        (release_beginnings (map application_of apps.now) (map shared_of libraries.now))
        seat.new.view) }
    ensures refused { IfErr result (λ _. seat.new.view ≡ seat.old.view) }
{
    let loaded = Loaded::of(alloc, libraries)?;
    let prepared = prepare_apps(alloc, &loaded, apps, libraries)?;
    let mut started = Vec::with_capacity(alloc, prepared.len())?;
    begin_apps(rt, table, seat, prepared, &mut started);
    Ok(Started {
        tree: Tree::of(started),
        loaded,
    })
}

// All memory that those of the applications need which a boot starts, in order.
fn prepare_apps(
    alloc: Global,
    loaded: &Loaded,
    apps: &[RelApp],
    libraries: &[Rc<Library>],
) -> Result<Vec<NewApp>, AllocError>
    requires { AllByRecursion (HasNoFault (tables_of (modules_in loaded.now)))
        (started_parts (parts (map application_of apps.now) (map shared_of libraries.now))) }
    ensures { IfOk result (λ ready. HaveMemory (tables_of (modules_in loaded.now))
        (started_parts (parts (map application_of apps.now) (map shared_of libraries.now)))
        ready.items) }
{
    let mut prepared = Vec::new(alloc);
    for place in 0..apps.len().min(libraries.len()) {
        let library = libraries[place].as_ref();
        if starts(apps[place].start) {
            let ready = prepare(alloc, loaded, &library.app)?;
            prepared.push(ready)?;
        }
    }
    Ok(prepared)
}

// All memory that an application needs that can start.
fn prepare(alloc: Global, loaded: &Loaded, app: &App) -> Result<NewApp, AllocError>
    requires { app_fault (tables_of (modules_in loaded.now))
        (specification_of app.now).top ≡ None }
    ensures { IfOk result (IsReady (specification_of app.now).name
        (app_members (tables_of (modules_in loaded.now)) (specification_of app.now).top)) }
{
    match prepare_app(alloc, loaded, app) {
        Ok(new) => Ok(new),
        Err(MembersError::NoMemory) => Err(AllocError),
        Err(_) => unreachable!(),
    }
}

// The applications start by this seat at its table, one after another. There are slots for all their processes, and so much room.
fn begin_apps<R: Wait>(
    rt: &R,
    table: &ProcTable,
    seat: &mut HandlerSeat,
    prepared: Vec<NewApp>,
    started: &mut Vec<StartedApp>,
)
    requires table { seat.old.table ≡ table.now }
    requires slots { number_to_begin prepared.items ≤ free_count seat.old.view }
    requires ready { AllByRecursion HasRoom prepared.items }
    requires none { started.old.items ≡ [] }
    requires room { length prepared.items ≤ vec_capacity started.old }
    ensures table { seat.new.table ≡ seat.old.table }
    ensures began { AppsBegan prepared.items seat.old.view
        (map app_of started.new.items) seat.new.view }
{
    let lent = Lent { table, seat };
    let _ = begin_apps_at::<R, Brand>(rt, lent, prepared, started);
}

// The applications start by an access to the table that is lent, and the seat is given back.
fn begin_apps_at<'t, R: Wait, S: Seating>(
    rt: &R,
    lent: Lent<'t>,
    prepared: Vec<NewApp>,
    started: &mut Vec<StartedApp>,
) -> &'t mut HandlerSeat
    requires name { lent.seat.ghost_name ≡ S.name }
    requires table { (lent.seat.now.table ≡ S.table) × (lent.table.now ≡ S.table) }
    requires slots { number_to_begin prepared.items ≤ free_count lent.seat.now.view }
    requires ready { AllByRecursion HasRoom prepared.items }
    requires none { started.old.items ≡ [] }
    requires room { length prepared.items ≤ vec_capacity started.old }
    ensures name { result.ghost_name ≡ S.name }
    ensures table { result.now.table ≡ S.table }
    ensures began { AppsBegan prepared.items lent.entry.seat.now.view
        (map app_of started.new.items) result.now.view }
{
    let mut access: TableAccess<'t, S> = TableAccess::new(lent);
    begin_each(rt, &mut access, prepared, started);
    access.into_seat()
}

// The applications start, one after another.
fn begin_each<R: Wait, S: Seating>(
    rt: &R,
    access: &mut TableAccess<'_, S>,
    prepared: Vec<NewApp>,
    started: &mut Vec<StartedApp>,
)
    requires slots { number_to_begin prepared.items ≤ free_count access.old }
    requires ready { AllByRecursion HasRoom prepared.items }
    requires none { started.old.items ≡ [] }
    requires room { length prepared.items ≤ vec_capacity started.old }
    ensures began { AppsBegan prepared.items access.old
        (map app_of started.new.items) access.new }
{
    for app in prepared {
        started.push_reserved(app.begin(rt, access));
    }
}

// Whether a boot starts an application of this type.
fn starts(start: StartType) -> bool
    ensures { result ≡ is_started start }
{
    match start {
        StartType::Permanent | StartType::Transient | StartType::Temporary => true,
        StartType::Load | StartType::Unloaded => false,
    }
}

// The release that runs: the current one, or the permanent one if none is current.
fn running_of(releases: &[ListedRelease]) -> Option<&ListedRelease>
    ensures { option_copied result ≡ option_or (find (λ l. is_current l.status) releases.now)
        (find (λ l. is_permanent l.status) releases.now) }
{
    current_of(releases).or(permanent_of(releases))
}

// The release that runs until the next boot and isn't permanent.
fn current_of(releases: &[ListedRelease]) -> Option<&ListedRelease>
    ensures { option_copied result ≡ find (λ l. is_current l.status) releases.now }
{
    releases.iter().find(|listed| listed.status.is_current())
}

// The permanent release.
fn permanent_of(releases: &[ListedRelease]) -> Option<&ListedRelease>
    ensures { option_copied result ≡ find (λ l. is_permanent l.status) releases.now }
{
    releases.iter().find(|listed| listed.status.is_permanent())
}
