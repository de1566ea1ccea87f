// The event of an installation is committed.
ghost use Rattle.std.specs.Prelude.{◌≡◌, true, false, IfErr, OnOk, length};
ghost use Rattle.rel_disk.specs.Moments.{HasFailed};
ghost use Rattle.rel_list.specs.Event.{event_of};
ghost use Rattle.rel_list.specs.Laws.{leaves_permanent, makes_one_shot};
ghost use Rattle.rel_list.specs.Refusal.{brings_release};
ghost use Rattle.rel_records.specs.Format.{writes_one_shot};
ghost use Rattle.rel_records.specs.Writing.{record_of};
ghost use Rattle.rel_store.specs.State.{HasRoom};
ghost use Rattle.node_store.specs.Commits.{Commits, IsAppended, IsDone, IsRecordFor};
ghost use Rattle.node_store.specs.Image.{HasSpace, LeavesBootSpace};
ghost use Rattle.node_store.specs.Refusals.{IsAllowed};
ghost use Rattle.node_store.specs.State.{disk_in, extent_in, format_in, list_in, is_dead, start_in, HasStarted, IsReady, IsSound};

use crate::NodeStore;
use crate::format::{makes_one_shot, writes_one_shot};
use node_command::HandlerError;
use rel_disk::Disk;
use rel_list::Event;
use std::alloc::Global;

impl<D: Disk> NodeStore<D> {
    /// Commits an installation after its script, for whose record there is room, and then compacts a long store, unless there is a
    /// one-shot. After a restart the node is dead.
    pub fn commit_installation(
        &mut self,
        alloc: Global,
        event: Event,
        body: &str,
    ) -> Result<(), HandlerError>
        requires sound { IsSound D.seen D.may_leave self.old }
        requires allowed { IsAllowed (event_of event) self.old }
        requires reported { IsRecordFor body.now (event_of event) (list_in self.old) }
        requires behind { LeavesBootSpace (event_of event) (length body.now)
            (extent_in self.old) (list_in self.old) }
        requires space { HasSpace (extent_in self.old) (length body.now) }
        requires room { HasRoom (length body.now) self.old.store }
        requires stays { leaves_permanent (event_of event) ≡ true }
        requires listed { brings_release (event_of event) ≡ false }
        ensures commits { Commits D.Disk (event_of event) (length body.now) self.old self.new }
        ensures done { OnOk result
            (IsDone D.Disk (event_of event) (length body.now) self.old self.new) }
        ensures dead { OnOk result (is_dead self.new ≡ makes_one_shot (event_of event)) }
        ensures format { OnOk result
            (writes_one_shot (record_of (event_of event) (list_in self.old)) ≡ true
            → format_in self.new ≡ 2) }
        ensures same_format { writes_one_shot (record_of (event_of event)
            (list_in self.old)) ≡ false → format_in self.new ≡ format_in self.old }
        ensures started { OnOk result (HasStarted D.may_leave self.new) }
        ensures start { OnOk result (start_in D.seen self.new ≡ start_in D.seen self.old) }
        ensures device { IfErr result (λ e. e ≡ HandlerError.Device) }
        ensures failed { IfErr result (λ _.
            HasFailed (D.failures (disk_in self.old)) (D.failures (disk_in self.new))) }
        ensures lost { IfErr result (λ _. is_dead self.new ≡ true) }
    {
        let restarts = makes_one_shot(&event);
        self.write_installation(alloc, event, body)?;
        self.compact(alloc)?;
        self.dead = restarts;
        Ok(())
    }

    // The list takes an installation, and the store its record. Where that writes a one-shot, the store becomes one of format 2
    // first.
    fn write_installation(
        &mut self,
        alloc: Global,
        event: Event,
        body: &str,
    ) -> Result<(), HandlerError>
        requires sound { IsSound D.seen D.may_leave self.old }
        requires allowed { IsAllowed (event_of event) self.old }
        requires reported { IsRecordFor body.now (event_of event) (list_in self.old) }
        requires behind { LeavesBootSpace (event_of event) (length body.now)
            (extent_in self.old) (list_in self.old) }
        requires space { HasSpace (extent_in self.old) (length body.now) }
        requires room { HasRoom (length body.now) self.old.store }
        requires listed { brings_release (event_of event) ≡ false }
        ensures commits { Commits D.Disk (event_of event) (length body.now) self.old self.new }
        ensures appended { OnOk result
            (IsAppended D.Disk (event_of event) (length body.now) self.old self.new) }
        ensures ready { OnOk result (IsReady D.seen D.may_leave self.new) }
        ensures start { OnOk result (start_in D.seen self.new ≡ start_in D.seen self.old) }
        ensures format { OnOk result
            (writes_one_shot (record_of (event_of event) (list_in self.old)) ≡ true
            → format_in self.new ≡ 2) }
        ensures same_format { writes_one_shot (record_of (event_of event)
            (list_in self.old)) ≡ false → format_in self.new ≡ format_in self.old }
        ensures dead { is_dead self.new ≡ true }
        ensures device { IfErr result (λ e. e ≡ HandlerError.Device) }
        ensures failed { IfErr result (λ _.
            HasFailed (D.failures (disk_in self.old)) (D.failures (disk_in self.new))) }
    {
        if !writes_one_shot(&event, &self.list) {
            return self.write(alloc, event, body);
        }
        self.allow_one_shots()?;
        self.write(alloc, event, body)
    }
}
