//! The script by which a release is installed.
ghost use Rattle.std.specs.Prelude.{◌≡◌, IfErr, IfOk, OnOk};
ghost use Rattle.std.specs.Option.{option_map, option_copied};
ghost use Rattle.relup_exec.specs.Following.{HoldsNothing};
ghost use Rattle.node_upgrade.specs.Failure.{failure_of};
ghost use Rattle.node_upgrade.specs.InMemory.{upgrade_of};
ghost use Rattle.node_upgrade.specs.Running.{IsCarriedOut, IsInstalled, RunRefused, ReportsRefusal, start_in, state, state_in};
ghost use Rattle.node_upgrade.specs.Upgrade.{IsNoUpgrade, IsUpgrade, changes_emulator, erts_of, script_failure, site_for};
ghost use Rattle.rel_files.specs.Release.{release_of};
ghost use Rattle.relup_exec.specs.Outcome.{Start};
ghost use Rattle.relup_exec.specs.Sites.{IsSeated, LendsSame, site_in, view_in};
ghost use Rattle.relup_file.specs.Script.{IsRunnable, restarts};
ghost use Rattle.relup_file.specs.Search.{found_of};
ghost use Rattle.relup_exec.specs.InMemory.{cause_of};
ghost use Rattle.loaded_modules.specs.Loaded.{listed_in};

use crate::error::{InstallError, ScriptFailure, Why};
use crate::stale::{keep_stale, names_concerned};
use erl_term::Term;
use library::Library;
use loaded_modules::Loaded;
use node_command::{HandlerError, find_installation};
use proc_table::{HandlerSeat, Name, ProcTable};
use rel_files::Rel;
use rel_list::ReleaseList;
use relup_exec::{Cause, Done, Failed, Refused, Site, Tree, run_before};
use relup_file::{Found, check, restarts};
use std::alloc::Global;
use std::rc::Rc;
use std::sync::Wait;

/// A release was installed.
#[derive(Drop)]
pub struct Installed {
    /// The version of the script's entry: the release that ran, or that of a downgrade's target.
    pub other: String,
    /// The description of the entry.
    pub descr: Term,
    /// The modules that are loaded in another version than the release has, or that only one of the two has: each once, by the
    /// bytes of their names.
    pub stale: Vec<Name>,
}

/// A script that may begin.
#[derive(Clone, Copy)]
pub struct Upgrade<'a> {
    list: &'a ReleaseList,
    target: &'a [Rc<Library>],
    found: Found<'a>,
}

/// The script by which the release of this version is installed. It takes no memory.
///
/// Refusals, in this order: `BadStatus` beside a one-shot; `NoSuchRelease`, `AlreadyInstalled`, `NoMatchingRelup`; then `Refused`
/// for another version of the runtime system, and for a script that isn't run.
pub fn find_upgrade<'a>(list: &'a ReleaseList, vsn: &str) -> Result<Upgrade<'a>, InstallError>
    ensures found { IfOk result (λ u. IsUpgrade vsn.now list.now (upgrade_of u)) }
    ensures refused { IfErr result (IsNoUpgrade vsn.now list.now) }
{
    let found = find_installation(list, vsn)?;
    match script_failure(list, vsn, &found) {
        Some(failure) => Err(InstallError::Refused(failure)),
        None => Ok(Upgrade {
            list,
            target: list.libraries(vsn),
            found,
        }),
    }
}

// Why the script isn't begun.
fn script_failure(list: &ReleaseList, vsn: &str, found: &Found<'_>) -> Option<ScriptFailure>
    ensures { option_map failure_of result
        ≡ script_failure vsn.now list.now (found_of found.now) }
{
    if changes_emulator(list, vsn) {
        return Some(ScriptFailure {
            instr: 0,
            why: Why::NewEmulator,
        });
    }
    match check(found.script) {
        Ok(()) => None,
        Err(fault) => Some(ScriptFailure::of_fault(fault)),
    }
}

// Whether the release of this version asks for another runtime system than the one that runs.
fn changes_emulator(list: &ReleaseList, vsn: &str) -> bool
    ensures { result ≡ changes_emulator vsn.now list.now }
{
    erts_of(list.release(vsn)) != erts_of(list.running())
}

fn erts_of(release: Option<&Rel>) -> &str
    ensures { result.now ≡ erts_of (option_map release_of (option_copied release.entry)) }
{
    match release {
        Some(release) => release.erts.as_str(),
        None => "",
    }
}

impl Upgrade<'_> {
    /// Whether the script ends with a restart of the runtime system, so that a boot has to follow it.
    pub fn restarts(&self) -> bool
        ensures { result ≡ restarts (upgrade_of self.now).found.script }
    {
        restarts(self.found.script)
    }

    /// Carries the script out on these processes. What is loaded is replaced at its end. The memory for the answer is taken before
    /// the script begins, so none is refused once it has ended.
    pub fn run<R: Wait>(
        self,
        rt: &R,
        alloc: Global,
        table: &ProcTable,
        seat: &mut HandlerSeat,
        tree: &mut Tree,
        loaded: &mut Loaded,
    ) -> Result<Installed, InstallError>
        requires table { seat.old.table ≡ table.now }
        requires free { HoldsNothing seat.old.view }
        requires runnable { IsRunnable (upgrade_of self).found.script }
        ensures table { seat.new.table ≡ seat.old.table }
        ensures free { HoldsNothing seat.new.view }
        ensures lent { seat.new.view.lent ≡ seat.old.view.lent }
        ensures installed { IfOk result (λ i. IsInstalled (upgrade_of self.entry)
            (state seat.old.view tree.old (listed_in loaded.old)) i
            (state seat.new.view tree.new (listed_in loaded.new))) }
        ensures refused { IfErr result (RunRefused (upgrade_of self.entry)
            (state seat.old.view tree.old (listed_in loaded.old))
            (state seat.new.view tree.new (listed_in loaded.new))) }
    {
        let mut site = Site {
            table,
            seat,
            tree,
            loaded,
            target: self.target,
            list: self.list,
        };
        let result = self.install(rt, alloc, &mut site);
        give_back(site);
        result
    }

    // Carries the script out where it runs, with the memory for the answer taken before.
    fn install<R: Wait>(
        self,
        rt: &R,
        alloc: Global,
        site: &mut Site<'_>,
    ) -> Result<Installed, InstallError>
        requires seated { IsSeated site.old }
        requires sources { site_in site.old
            ≡ site_for (upgrade_of self) (listed_in site.old.loaded.now) }
        requires free { HoldsNothing (view_in site.old) }
        requires runnable { IsRunnable (upgrade_of self).found.script }
        ensures table { site.new.table.now ≡ site.old.table.now }
        ensures seat { site.new.seat.ghost_name ≡ site.old.seat.ghost_name }
        ensures tree { site.new.tree.ghost_name ≡ site.old.tree.ghost_name }
        ensures loaded { site.new.loaded.ghost_name ≡ site.old.loaded.ghost_name }
        ensures seated { IsSeated site.new }
        ensures free { HoldsNothing (view_in site.new) }
        ensures lent { (view_in site.new).lent ≡ (view_in site.old).lent }
        ensures installed { IfOk result (λ i. IsInstalled (upgrade_of self.entry)
            (state_in site.old) i (state_in site.new)) }
        ensures refused { IfErr result (RunRefused (upgrade_of self.entry)
            (state_in site.old) (state_in site.new)) }
    {
        let other = String::from_str(alloc, self.found.other)?;
        let descr = self.found.descr.clone()?;
        let target = Loaded::of(alloc, self.target)?;
        let mut stale = names_concerned(alloc, &*site.loaded, &target, self.found.script)?;
        self.carry_out(rt, alloc, site)?;
        keep_stale(&mut stale, &*site.loaded, &target);
        Ok(Installed {
            other,
            descr,
            stale,
        })
    }

    // Carries the script out. What the handler had seen and what was started at first is known to the proof.
    fn carry_out<R: Wait>(
        self,
        rt: &R,
        alloc: Global,
        site: &mut Site<'_>,
    ) -> Result<(), InstallError>
        ghost start: { Start }
        requires start { start ≡ start_in (state_in site.old) }
        requires seated { IsSeated site.old }
        requires sources { site_in site.old
            ≡ site_for (upgrade_of self) (listed_in site.old.loaded.now) }
        requires free { HoldsNothing (view_in site.old) }
        requires runnable { IsRunnable (upgrade_of self).found.script }
        ensures same { LendsSame site.old site.new }
        ensures seated { IsSeated site.new }
        ensures free { HoldsNothing (view_in site.new) }
        ensures lent { (view_in site.new).lent ≡ (view_in site.old).lent }
        ensures finished { OnOk result (IsCarriedOut (upgrade_of self.entry)
            (state_in site.old) (state_in site.new)) }
        ensures refused { IfErr result (RunRefused (upgrade_of self.entry)
            (state_in site.old) (state_in site.new)) }
    {
        match run_before(rt, alloc, site, self.found.script) {
            Ok(armed) => match armed.run_after(rt, alloc, site) {
                Ok(Done) => Ok(()),
                Err(Failed { instr, cause }) => Err(InstallError::MustReboot(ScriptFailure {
                    instr,
                    why: Why::Fails(cause),
                })),
            },
            Err(Refused { instr, cause }) => Err(refusal(instr, cause)),
        }
    }
}

// What a site lent is free again, as it stands there.
fn give_back(site: Site<'_>)
    ensures seat { site.exit.1.0.now ≡ site.entry.seat.now }
    ensures tree { site.exit.1.1.0.now ≡ site.entry.tree.now }
    ensures loaded { site.exit.1.1.1.0.now ≡ site.entry.loaded.now }
{
    let Site {
        table: _table,
        seat: _seat,
        tree: _tree,
        loaded: _loaded,
        target: _target,
        list: _list,
    } = site;
}

// What is reported of an instruction before the point of no return that fails. Out of memory is reported as `NoMemory`.
fn refusal(instr: u32, cause: Cause) -> InstallError
    ensures { ReportsRefusal instr (cause_of cause) result }
{
    match cause {
        Cause::NoMemory => InstallError::Command(HandlerError::NoMemory),
        cause => InstallError::Refused(ScriptFailure {
            instr,
            why: Why::Fails(cause),
        }),
    }
}
