//! `apply`: applications are started and stopped, children of supervisors end, go or begin again, or the script itself raises an
//! error (OTP: application(3), supervisor(3), erlang:error/1).
ghost use Rattle.std.specs.Prelude.{◌≡◌, IsTrue, Some};
ghost use Rattle.std.specs.Option.{option_map};
ghost use Rattle.erl_term.specs.Value.{members_of};
ghost use Rattle.library.specs.InMemory.{library_of, shared_of};
ghost use Rattle.relup_instruction.specs.Instruction.{call_of};
ghost use Rattle.relup_instruction.specs.Instruction.Instruction.{apply};
ghost use Rattle.relup_file.specs.Script.{is_supported_call};
ghost use Rattle.script_progress.specs.Apps.{CallsApp, StartsFrom, app_call_of, start_cause};
ghost use Rattle.script_progress.specs.InMemory.{cause_of, site_of};
ghost use Rattle.script_progress.specs.Calls.{app_call, first_atom};
ghost use Rattle.script_progress.specs.Script.{scene_of, target_library, with_scene};
ghost use Rattle.script_progress.specs.Steps.{CarriesOutLate, HasDone, GoesByLooks, Past, progress_of};
ghost use Rattle.script_progress.specs.Stops.{AsksMemory, app_takes_memory, may_start};
ghost use Rattle.held_processes.specs.Applications.{with_stopped};
ghost use Rattle.held_processes.specs.Following.{AreLonger};

use crate::cause::failure_at_start;
use crate::child::{call_child, child_call};
use crate::errors::{error_term, raise};
use crate::{Cause, Failure, Progress, Sources, on_no_child};
use erl_term::Term;
use held_processes::AppName;
use library::Library;
use relup_instruction::Call;
use std::alloc::Global;
use std::rc::Rc;
use std::sync::Wait;
use sup_tree::StartError;
use table_access::{Seating, TableAccess};

// What a call does to applications. Those that load and unload them do nothing.
enum AppCall<'a> {
    Starts(&'a str),
    Stops(&'a str),
    Idle,
}

/// Makes a call on an application or on a child of a supervisor after the point of no return, or raises the script's error. It
/// reports whether a child was left as it is. Where it fails, the failure reports why, and whether what stood for a child was given
/// up. It waits for processes that clients have.
pub fn apply<R: Wait, S: Seating>(
    progress: &mut Progress,
    rt: &R,
    alloc: Global,
    access: &mut TableAccess<'_, S>,
    sources: &Sources<'_>,
    call: &Call,
) -> Result<bool, Failure>
    ghost past: { Past }
    requires supported { IsTrue (is_supported_call (call_of call.now)) }
    requires done { HasDone past (progress_of progress.old) progress.old.tree access.old }
    ensures longer { AreLonger access.old access.new }
    ensures carried { CarriesOutLate (site_of sources.now) past (apply (call_of call.now))
        result (progress_of progress.new) progress.new.tree access.old access.new }
    ensures looked { GoesByLooks past (apply (call_of call.now)) result
        access.old access.new }
{
    match call.name.as_str() {
        "application" => on_no_child(call_app(
            progress,
            rt,
            alloc,
            access,
            sources,
            app_call(call),
        )),
        "supervisor" => call_child(progress, rt, alloc, access, child_call(call)),
        _ => Err(raise(error_term(call))),
    }
}

// A call on an application. It does nothing where it neither starts nor stops one.
fn call_app<R: Wait, S: Seating>(
    progress: &mut Progress,
    rt: &R,
    alloc: Global,
    access: &mut TableAccess<'_, S>,
    sources: &Sources<'_>,
    call: AppCall<'_>,
) -> Result<(), Failure>
    ghost past: { Past }
    requires done { HasDone past (progress_of progress.old) progress.old.tree access.old }
    ensures longer { AreLonger access.old access.new }
    ensures called { CallsApp (site_of sources.now) past (app_call_of call.entry)
        result (progress_of progress.new) progress.new.tree access.new }
    ensures memory { AsksMemory
        (app_takes_memory (site_of sources.now) (app_call_of call.entry) past.run) result }
{
    match call {
        AppCall::Starts(app) => match target_library(sources, app) {
            Some(library) => start_from(progress, rt, alloc, access, library.as_ref()),
            None => Err(failure_at_start(Cause::NoApp)),
        },
        AppCall::Stops(name) => {
            stop_app(progress, rt, access, &AppName { name });
            Ok(())
        }
        AppCall::Idle => Ok(()),
    }
}

// The application of this library is started, unless it is.
fn start_from<R: Wait, S: Seating>(
    progress: &mut Progress,
    rt: &R,
    alloc: Global,
    access: &mut TableAccess<'_, S>,
    library: &Library,
) -> Result<(), Failure>
    ghost past: { Past }
    requires done { HasDone past (progress_of progress.old) progress.old.tree access.old }
    ensures longer { AreLonger access.old access.new }
    ensures started { StartsFrom (Some (library_of library.now)) past
        result (progress_of progress.new) progress.new.tree access.new }
    ensures memory { AsksMemory (may_start (Some (library_of library.now)) past.run) result }
{
    let Library { app, .. } = library;
    match progress
        .held
        .start_app(rt, alloc, access, &mut progress.tree, app, &progress.next)
    {
        Ok(()) => Ok(()),
        Err(error) => match start_cause(error) {
            Some(cause) => Err(failure_at_start(cause)),
            None => Ok(()),
        },
    }
}

// The application is stopped, if it is started.
fn stop_app<R: Wait, S: Seating>(
    progress: &mut Progress,
    rt: &R,
    access: &mut TableAccess<'_, S>,
    app: &AppName<'_>,
)
    ghost past: { Past }
    requires done { HasDone past (progress_of progress.old) progress.old.tree access.old }
    ensures longer { AreLonger access.old access.new }
    ensures done { HasDone (record past {
      run = with_scene past.run (with_stopped app.now.name.now (scene_of past.run));
    }) (progress_of progress.new) progress.new.tree access.new }
{
    progress.held.stop_app(rt, access, &mut progress.tree, app);
}

// What a call does to applications.
fn app_call(call: &Call) -> AppCall<'_>
    ensures { app_call_of result ≡ app_call (call_of call.now) }
{
    if call.name.as_str() != "application" {
        return AppCall::Idle;
    }
    let app = first_atom(call.args.as_slice());
    match call.function.as_str() {
        "start" => AppCall::Starts(app),
        "stop" => AppCall::Stops(app),
        _ => AppCall::Idle,
    }
}

// The first name that a call gives: of an application, or of the module of a supervisor.
pub(crate) fn first_atom(args: &[Term]) -> &str
    ensures { result.now ≡ first_atom (members_of args.now) }
{
    match args.first() {
        Some(Term::Atom(name)) => name.as_str(),
        _ => "",
    }
}

// The library of this application in the release to which the script leads.
fn target_library<'a>(sources: &Sources<'a>, app: &str) -> Option<&'a Rc<Library>>
    ensures { option_map (λ l. shared_of l.now) result
        ≡ target_library (site_of sources.now) app.now }
{
    for library in sources.target {
        if library.app.name.as_str() == app {
            return Some(library);
        }
    }
    None
}

// Why a script fails where an application isn't started. One that is started already is no reason.
fn start_cause(error: StartError<'_>) -> Option<Cause>
    ensures { option_map cause_of result ≡ start_cause error.entry }
{
    match error {
        StartError::AlreadyStarted => None,
        StartError::NoTable(_) => Some(Cause::NoTable),
        StartError::Unsupported => Some(Cause::Unsupported),
        StartError::NoSlot => Some(Cause::NoSlot),
        StartError::NoMemory => Some(Cause::NoMemory),
    }
}
