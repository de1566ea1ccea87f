// A node's releases on a disk, and the commands on them.
//
// After its commit a command compacts the store, where that has 64 records or more: one record stands for the whole list then
// (`compacted`). Where memory is refused to it, or the list has no such record that fits, the store stays as it was, and the
// command succeeds (`MayReach`). Where the device fails in it, the command answers `Device`, and its event is on the disk.
// Neither a creation nor a boot compacts.
ghost use Rattle.std.specs.Prelude.{◌≡◌, true, false, Some, IfOk, IfErr, OnOk, MatchResult, Ok, Err};
ghost use Rattle.rel_files.specs.Release.{Release};
ghost use Rattle.rel_list.specs.Event.Event.{made_permanent, removed, reboot_old};
ghost use Rattle.rel_list.specs.Releases.{permanent};
ghost use Rattle.rel_records.specs.Startable.{AreStartable};
ghost use Rattle.relup_file.specs.Search.{found_of};
ghost use Rattle.start_record.specs.Text.{versions_of};
ghost use Rattle.node_store.specs.Commands.{CommitsChange};
ghost use Rattle.node_store.specs.Start.{start_of_release};
ghost use Rattle.node_store.specs.State.{disk_in, format_in, list_in, is_dead, IsSound};
ghost use Rattle.rel_handler.specs.Checking.{check_result};
ghost use Rattle.rel_handler.specs.Moments.{HasRead};
ghost use Rattle.rel_handler.specs.Refusals.{StartRefused};

use node_command::{HandlerError, find_installation};
use node_store::NodeStore;
use rel_disk::Disk;
use rel_list::{Event, ReleaseList};
use relup_file::Found;
use start_record::{Start, StartError, read_start};
use std::alloc::Global;
use std::marker::Model;

/// A node's releases on a disk. A contract sees what the node keeps there.
#[derive(Drop)]
pub struct Handler<D: Disk> {
    pub(crate) node: NodeStore<D>,
}

impl<D: Disk> Model for Handler<D> {
    ghost use Rattle.node_store.specs.declared.node_store.NodeStore.{NodeStore};
    ghost use Rattle.std.specs.Coded.{codes};
    ghost use Rattle.library.specs.Codes.{value_code, values_code};

    ghost Value = { NodeStore D };

    // Of terms, which hold further terms, Rattle finds no code by itself.
    ghost coded = { Prim.hlevel (codes, value_code, values_code) };

    ghost view = { λ h. h.node };
}

impl<D: Disk> Handler<D> {
    /// The disk, with whatever is known of it.
    pub fn into_disk(self) -> D
        ensures { result ≡ disk_in self }
    {
        let Handler { node } = self;
        node.into_disk()
    }

    /// Whether every call but `into_disk` answers `Dead`: the device failed in a command, a script failed after its point of no
    /// return, or the node is to be booted after a reboot or a restart.
    pub fn is_dead(&self) -> bool
        ensures { result ≡ is_dead self.now }
    {
        self.node.dead
    }

    /// The releases of the node, in order of coming. A boot can start each of them (`startable`).
    pub fn which_releases(&self) -> Result<&ReleaseList, HandlerError>
        ensures releases { MatchResult result (λ list. (is_dead self.now ≡ false)
            × (list.now ≡ list_in self.now))
            (λ e. (e ≡ HandlerError.Dead) × (is_dead self.now ≡ true)) }
        ensures startable { IsSound D.seen D.may_leave self.now
            → IfOk result (λ list. AreStartable list.now) }
    {
        if self.node.dead {
            Err(HandlerError::Dead)
        } else {
            Ok(&self.node.list)
        }
    }

    /// What the node starts, as its start record reports it: the permanent release, and its version of the runtime system.
    /// Reads the disk.
    ///
    /// Refusals: `Dead`, `Device`, after which the handler is dead, `NoMemory`.
    pub fn start(&mut self, alloc: Global) -> Result<Start, HandlerError>
        requires { IsSound D.seen D.may_leave self.old }
        ensures sound { IsSound D.seen D.may_leave self.new }
        ensures read { HasRead D.Disk self.old self.new }
        ensures works { OnOk result ((is_dead self.old ≡ false) × (is_dead self.new ≡ false)) }
        ensures format { format_in self.new ≡ format_in self.old }
        ensures reports { IfOk result (λ start. (r : Release)
            × (permanent (list_in self.old) ≡ Some r) × (versions_of start ≡ start_of_release r)) }
        ensures refused { IfErr result (StartRefused D.failures self.old self.new) }
    {
        if self.node.dead {
            return Err(HandlerError::Dead);
        }
        match read_start(alloc, &mut self.node.store) {
            Ok(start) => Ok(start),
            Err(StartError::NoMemory) => Err(HandlerError::NoMemory),
            Err(StartError::BadStart) => unreachable!(),
            Err(_) => {
                self.node.dead = true;
                Err(HandlerError::Device)
            }
        }
    }

    /// The script by which the release of this version would be installed, with the version and the description of its entry
    /// (OTP: release_handler:check_install_release/1). It takes no memory.
    ///
    /// Refusals, in this order: `Dead`, `NoSuchRelease`, `AlreadyInstalled`, `NoMatchingRelup`.
    pub fn check_install(&self, vsn: &str) -> Result<Found<'_>, HandlerError>
        ensures { MatchResult result
            (λ found. check_result vsn.now self.now ≡ Ok (found_of found))
            (λ why. check_result vsn.now self.now ≡ Err why) }
    {
        find_installation(self.which_releases()?, vsn)
    }

    /// Makes the current release, of this version, the permanent one: the list is committed, then the start record, and then a
    /// long store is compacted. At `Ok` both are acknowledged (`done`, `start_of_release`).
    ///
    /// Refusals, in this order: `Dead`, `NoSuchRelease`, `BadStatus`, `Full`; `NoMemory` as of `set_unpacked`. After a
    /// `Device` the list has the event or not, the start record is the old one or the new, and a store with both may be
    /// compacted.
    pub fn make_permanent(&mut self, alloc: Global, vsn: &str) -> Result<(), HandlerError>
        requires { IsSound D.seen D.may_leave self.old }
        ensures { CommitsChange D.Disk (made_permanent vsn.now) result self.old self.new }
    {
        if self.node.dead {
            return Err(HandlerError::Dead);
        }
        let promotion = Event::MadePermanent(String::from_str(alloc, vsn)?);
        self.node.move_permanent(alloc, vsn, promotion)
    }

    /// Makes an old release the permanent one, and has the node boot: the list is committed, then the start record, and then a
    /// long store is compacted. At `Ok` both are acknowledged (`done`, `start_of_release`), and the handler is dead until the
    /// next boot.
    ///
    /// Refusals, in this order: `Dead`, `NoSuchRelease`, `BadStatus`, `Full`; else as `make_permanent`.
    pub fn reboot_old_release(&mut self, alloc: Global, vsn: &str) -> Result<(), HandlerError>
        requires { IsSound D.seen D.may_leave self.old }
        ensures { CommitsChange D.Disk (reboot_old vsn.now) result self.old self.new }
    {
        if self.node.dead {
            return Err(HandlerError::Dead);
        }
        let reboot = Event::RebootOld(String::from_str(alloc, vsn)?);
        self.node.move_permanent(alloc, vsn, reboot)
    }

    /// Takes a release out of the list, and then compacts a long store. At `Ok` the removal is acknowledged (`done`).
    ///
    /// Refusals, in this order: `Dead`, `NoSuchRelease`, `Permanent`, `Running`, `Full`; `NoMemory` and `Device`
    /// as of `set_unpacked`.
    pub fn remove_release(&mut self, alloc: Global, vsn: &str) -> Result<(), HandlerError>
        requires { IsSound D.seen D.may_leave self.old }
        ensures { CommitsChange D.Disk (removed vsn.now) result self.old self.new }
    {
        if self.node.dead {
            return Err(HandlerError::Dead);
        }
        let vsn = String::from_str(alloc, vsn)?;
        self.node.change(alloc, Event::Removed(vsn))
    }
}
