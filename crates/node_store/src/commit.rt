// An event and its record are committed.
ghost use Rattle.std.specs.Prelude.{◌≡◌, ◌+◌, true, false, length, IfErr, OnOk};
ghost use Rattle.rel_list.specs.Event.{event_of};
ghost use Rattle.rel_list.specs.Laws.{leaves_permanent, makes_one_shot};
ghost use Rattle.rel_list.specs.Refusal.{brings_release};
ghost use Rattle.rel_records.specs.Format.{writes_one_shot};
ghost use Rattle.rel_records.specs.Writing.{IsOfListed, record_of};
ghost use Rattle.node_store.specs.Commands.{AppendsEvent, CommitsChange, CommitsEvent};
ghost use Rattle.node_store.specs.Commits.{IsRecordFor};
ghost use Rattle.node_store.specs.Image.{HasSpace, LeavesBootSpace};
ghost use Rattle.node_store.specs.Refusals.{HasNoRoom, IsAllowed};
ghost use Rattle.node_store.specs.State.{extent_in, format_in, list_in, is_dead, start_in, store_extent, IsSound};
ghost use Rattle.node_command.specs.Taking.{change_size};
ghost use Rattle.rel_store.specs.State.{has_failed, HasRoom, IsSame as IsSameStore, IsSoundStore};

use crate::NodeStore;
use node_command::HandlerError;
use record_writer::change_body;
use rel_disk::Disk;
use rel_list::Event;
use rel_store::Store;
use std::alloc::Global;

/// Makes room for a record with a body of so many bytes in a store that hasn't failed, where so many more fit after it. The store
/// is as it was but for memory.
pub fn make_room<D: Disk>(
    store: &mut Store<D>,
    alloc: Global,
    size: usize,
    behind: usize,
) -> Result<(), HandlerError>
    requires sound { IsSoundStore D.seen D.may_leave store.old }
    requires works { has_failed store.old ≡ false }
    ensures sound { IsSoundStore D.seen D.may_leave store.new }
    ensures kept { IsSameStore store.old store.new }
    ensures space { OnOk result (HasSpace (store_extent store.old) (size + behind)) }
    ensures room { OnOk result (HasRoom size store.new) }
    ensures refused { IfErr result (HasNoRoom (store_extent store.old) (size + behind)) }
{
    if !store.fits(size.saturating_add(behind)) {
        return Err(HandlerError::Full);
    }
    if store.reserve(alloc, size).is_err() {
        return Err(HandlerError::NoMemory);
    }
    Ok(())
}

impl<D: Disk> NodeStore<D> {
    // The list takes an event, and the store its record, for which there is room. The node is dead from the write on, until its
    // caller has written all that belongs to the event. An event that brings no release is refused for the device alone.
    pub(crate) fn write(
        &mut self,
        alloc: Global,
        event: Event,
        body: &str,
    ) -> Result<(), HandlerError>
        requires sound { IsSound D.seen D.may_leave self.old }
        requires allowed { IsAllowed (event_of event) self.old }
        requires reported { IsRecordFor body.now (event_of event) (list_in self.old) }
        requires format { writes_one_shot (record_of (event_of event) (list_in self.old)) ≡ true
            → format_in self.old ≡ 2 }
        requires behind { LeavesBootSpace (event_of event) (length body.now)
            (extent_in self.old) (list_in self.old) }
        requires space { HasSpace (extent_in self.old) (length body.now) }
        requires room { HasRoom (length body.now) self.old.store }
        ensures appends { AppendsEvent D.Disk (event_of event) (length body.now)
            result self.old self.new }
        ensures start { OnOk result (start_in D.seen self.new ≡ start_in D.seen self.old) }
        ensures device { brings_release (event_of event) ≡ false
            → IfErr result (λ e. e ≡ HandlerError.Device) }
    {
        if self.list.accept(alloc, event).is_err() {
            return Err(HandlerError::NoMemory);
        }
        self.dead = true;
        if self.store.append(alloc, body.as_bytes()).is_err() {
            return Err(HandlerError::Device);
        }
        Ok(())
    }

    // Makes room for the record of an event, and then does so.
    fn append(&mut self, alloc: Global, event: Event, body: &str) -> Result<(), HandlerError>
        requires sound { IsSound D.seen D.may_leave self.old }
        requires allowed { IsAllowed (event_of event) self.old }
        requires reported { IsRecordFor body.now (event_of event) (list_in self.old) }
        requires other { makes_one_shot (event_of event) ≡ false }
        ensures appends { AppendsEvent D.Disk (event_of event) (length body.now)
            result self.old self.new }
        ensures start { OnOk result (start_in D.seen self.new ≡ start_in D.seen self.old) }
    {
        make_room(&mut self.store, alloc, body.len(), 0)?;
        self.write(alloc, event, body)
    }

    // Appends the record of an event that brings no release, where the list allows it.
    pub(crate) fn append_change(&mut self, alloc: Global, event: Event) -> Result<(), HandlerError>
        requires sound { IsSound D.seen D.may_leave self.old }
        requires works { is_dead self.old ≡ false }
        requires listed { IsOfListed (event_of event) }
        requires other { makes_one_shot (event_of event) ≡ false }
        ensures appends { AppendsEvent D.Disk (event_of event)
            (change_size (event_of event) (list_in self.old)) result self.old self.new }
        ensures start { OnOk result (start_in D.seen self.new ≡ start_in D.seen self.old) }
    {
        if let Some(why) = self.list.refusal(&event) {
            return Err(HandlerError::from(why));
        }
        let body = change_body(alloc, &self.list, &event)?;
        self.append(alloc, event, body.as_str())
    }

    /// Commits an event after which the permanent release is the one that it was, and then compacts the store, if it is long.
    pub fn commit(&mut self, alloc: Global, event: Event, body: &str) -> Result<(), HandlerError>
        requires sound { IsSound D.seen D.may_leave self.old }
        requires allowed { IsAllowed (event_of event) self.old }
        requires reported { IsRecordFor body.now (event_of event) (list_in self.old) }
        requires other { makes_one_shot (event_of event) ≡ false }
        requires stays { leaves_permanent (event_of event) ≡ true }
        ensures { CommitsEvent D.Disk (event_of event) (length body.now)
            result self.old self.new }
    {
        self.append(alloc, event, body)?;
        self.compact(alloc)?;
        self.dead = false;
        Ok(())
    }

    /// Commits an event that brings no release, where the list allows it.
    pub fn change(&mut self, alloc: Global, event: Event) -> Result<(), HandlerError>
        requires sound { IsSound D.seen D.may_leave self.old }
        requires works { is_dead self.old ≡ false }
        requires listed { IsOfListed (event_of event) }
        requires other { makes_one_shot (event_of event) ≡ false }
        requires stays { leaves_permanent (event_of event) ≡ true }
        ensures { CommitsChange D.Disk (event_of event) result self.old self.new }
    {
        self.append_change(alloc, event)?;
        self.compact(alloc)?;
        self.dead = false;
        Ok(())
    }
}
