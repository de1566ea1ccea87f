// A release is installed: its script is carried out, and then its event is committed.
//
// An installation finds its script and makes room for its record first. Then the script runs (`node_upgrade`), and after it the
// event is committed (`IsInstalledBy`). What is refused before the script's point of no return has changed nothing, of the
// handler and of the processes (`NothingChanged`). A script that fails after it leaves the handler dead, its list and its disk
// as they were (`IsLost`). After a script that ends with a restart the handler is dead too. The release is a one-shot then,
// unless it is the permanent one: the next boot starts it, and has room for its record, which was asked for together with that of
// the installation (`install_room`).
ghost use Rattle.std.specs.Prelude.{◌≡◌, ◌≢◌, true, false, IfErr, IfOk, OnOk};
ghost use Rattle.node_upgrade.specs.Following.{HoldsNothing};
ghost use Rattle.loaded_modules.specs.Loaded.{listed_in};
ghost use Rattle.node_upgrade.specs.Running.{state};
ghost use Rattle.node_store.specs.Commits.{Commits, IsDone};
ghost use Rattle.node_store.specs.Image.{HasSpace};
ghost use Rattle.node_store.specs.State.{extent_in, format_in, list_in, is_dead, start_in, HasStarted, IsSound};
ghost use Rattle.rel_handler.specs.Installing.{InstallRefused, IsInstalledBy, install_event, install_room, install_size, installs_one_shot, must_boot, needs_restart};

use crate::Handler;
use crate::install_record::InstallRecord;
use loaded_modules::Loaded;
use node_command::HandlerError;
use node_store::make_room;
use node_upgrade::{InstallError, Installed, Tree, find_upgrade};
use proc_table::{HandlerSeat, ProcTable};
use rel_disk::Disk;
use std::alloc::Global;
use std::sync::Wait;

impl<D: Disk> Handler<D> {
    /// Installs a release by its script: its processes are upgraded, and it is current until the next boot, unless it is the
    /// permanent one. The script is carried out first, then the event is committed, and then a long store is compacted; at `Ok` the
    /// event is acknowledged (`done`). It waits for processes that clients have.
    ///
    /// Where the script ends with a restart of the runtime system, the release becomes a one-shot, which the next boot starts,
    /// once; a permanent one stays permanent. The handler is dead until that boot (`dead`). The store becomes one of format 2
    /// for a record that writes a one-shot and for no other (`format`, `same_format`), after the script (`refused_format`). It has
    /// room for the record of the boot (`room`), and is compacted only where there is no one-shot.
    ///
    /// Refusals, in this order: `Dead`, `NoSuchRelease`, `AlreadyInstalled`, `NoMatchingRelup`; `Refused` for a script that isn't
    /// run; `Full`; `Refused` for an instruction before the point of no return. Nothing has changed then. `MustReboot` for one
    /// after it, and `Device` after the script: then the handler is dead.
    pub fn install_release<R: Wait>(
        &mut self,
        rt: &R,
        alloc: Global,
        table: &ProcTable,
        seat: &mut HandlerSeat,
        tree: &mut Tree,
        loaded: &mut Loaded,
        vsn: &str,
    ) -> Result<Installed, InstallError>
        requires sound { IsSound D.seen D.may_leave self.old }
        requires table { seat.old.table ≡ table.now }
        requires free { HoldsNothing seat.old.view }
        ensures table { seat.new.table ≡ seat.old.table }
        ensures free { HoldsNothing seat.new.view }
        ensures lent { seat.new.view.lent ≡ seat.old.view.lent }
        ensures commits { Commits D.Disk (install_event vsn.now (list_in self.old))
            (install_size vsn.now (list_in self.old)) self.old self.new }
        ensures done { OnOk result (IsDone D.Disk (install_event vsn.now (list_in self.old))
            (install_size vsn.now (list_in self.old)) self.old self.new) }
        ensures room { OnOk result
            (HasSpace (extent_in self.old) (install_room vsn.now (list_in self.old))) }
        ensures dead { OnOk result (is_dead self.new ≡ needs_restart vsn.now (list_in self.old)) }
        ensures format { OnOk result (installs_one_shot vsn.now (list_in self.old) ≡ true
            → format_in self.new ≡ 2) }
        ensures same_format { installs_one_shot vsn.now (list_in self.old) ≡ false
            → format_in self.new ≡ format_in self.old }
        ensures refused_format { IfErr result (λ e. e ≢ InstallError.Command HandlerError.Device
            → format_in self.new ≡ format_in self.old) }
        ensures started { OnOk result (HasStarted D.may_leave self.new) }
        ensures start { OnOk result (start_in D.seen self.new ≡ start_in D.seen self.old) }
        ensures installed { IfOk result (λ i. IsInstalledBy vsn.now (list_in self.old)
            (state seat.old.view tree.old (listed_in loaded.old)) i
            (state seat.new.view tree.new (listed_in loaded.new))) }
        ensures refused { IfErr result (InstallRefused D.failures vsn.now self.old self.new
            (state seat.old.view tree.old (listed_in loaded.old))
            (state seat.new.view tree.new (listed_in loaded.new))) }
    {
        if self.node.dead {
            return Err(InstallError::Command(HandlerError::Dead));
        }
        let upgrade = find_upgrade(&self.node.list, vsn)?;
        let InstallRecord { event, body, room } = InstallRecord::of(
            alloc,
            &self.node.list,
            vsn,
            upgrade.restarts(),
        )?;
        let text = body.as_str();
        make_room(&mut self.node.store, alloc, text.len(), room)?;
        let installed = match upgrade.run(rt, alloc, table, seat, tree, loaded) {
            Ok(installed) => installed,
            Err(error) => {
                self.node.dead = must_boot(&error);
                return Err(error);
            }
        };
        self.node.commit_installation(alloc, event, text)?;
        Ok(installed)
    }
}

// Whether the script failed after its point of no return.
fn must_boot(error: &InstallError) -> bool
    ensures { result ≡ must_boot error.now }
{
    matches!(error, InstallError::MustReboot(_))
}
