// The start record of a node is written.
ghost use Rattle.std.specs.Prelude.{◌≡◌, ℕ, List, false, true, Some, IfOk, IfErr, OnOk};
ghost use Rattle.rel_disk.specs.Moments.{HasFailed};
ghost use Rattle.rel_files.specs.Release.{Release, release_of};
ghost use Rattle.rel_list.specs.Event.{event_of};
ghost use Rattle.rel_list.specs.Releases.{release_at};
ghost use Rattle.node_store.specs.Commands.{AppendsEvent, CommitsChange, asks_for_boot};
ghost use Rattle.node_store.specs.Commits.{Keeps, MakesPermanent};
ghost use Rattle.node_store.specs.Start.{start_of_release};
ghost use Rattle.node_store.specs.Image.{IsImageWithExtent, start_bytes};
ghost use Rattle.node_store.specs.Refusals.{IsStartRefusal};
ghost use Rattle.node_store.specs.State.{disk_in, extent_in, format_in, list_in, is_dead, HasStarted, IsReady, IsSound};
ghost use Rattle.node_command.specs.Taking.{change_size};
ghost use Rattle.rel_store.specs.Layout.{slot_with};
ghost use Rattle.start_record.specs.Text.{AreVersions, versions_of, start_text};

use crate::NodeStore;
use node_command::HandlerError;
use rel_disk::{DeviceFault, Disk};
use rel_files::Rel;
use rel_list::{Event, ReleaseList};
use start_record::{Start, write_start};
use std::alloc::{AllocError, Global};

impl<D: Disk> NodeStore<D> {
    /// Commits an event that makes the release of this version the permanent one: the list, then the start record, and then
    /// a long store is compacted. The node is dead after it only if the event asks for a boot.
    pub fn move_permanent(
        &mut self,
        alloc: Global,
        vsn: &str,
        event: Event,
    ) -> Result<(), HandlerError>
        requires sound { IsSound D.seen D.may_leave self.old }
        requires works { is_dead self.old ≡ false }
        requires moves { MakesPermanent vsn.now (event_of event) }
        ensures { CommitsChange D.Disk (event_of event) result self.old self.new }
    {
        let boots = asks_for_boot(&event);
        self.append_move(alloc, vsn, event)?;
        self.compact(alloc)?;
        self.dead = boots;
        Ok(())
    }

    // Appends the record of such an event, and then writes the start record. The node is dead after it.
    fn append_move(&mut self, alloc: Global, vsn: &str, event: Event) -> Result<(), HandlerError>
        requires sound { IsSound D.seen D.may_leave self.old }
        requires works { is_dead self.old ≡ false }
        requires moves { MakesPermanent vsn.now (event_of event) }
        ensures appends { AppendsEvent D.Disk (event_of event)
            (change_size (event_of event) (list_in self.old)) result self.old self.new }
        ensures started { OnOk result (HasStarted D.may_leave self.new) }
    {
        let start = start_at(alloc, &self.list, vsn)?;
        self.append_change(alloc, event)?;
        self.commit_start(&start)?;
        Ok(())
    }

    /// Writes the start record after a committed event. The node is dead after it.
    pub fn commit_start(&mut self, start: &Start) -> Result<(), DeviceFault>
        requires ready { IsReady D.seen D.may_leave self.old }
        requires versions { AreVersions (versions_of start.now) }
        ensures keeps { Keeps D.Disk (start_text (versions_of start.now)) self.old self.new }
        ensures ready { OnOk result (IsReady D.seen D.may_leave self.new) }
        ensures acknowledged { OnOk result ((c : List ℕ) → D.may_leave (disk_in self.new) c
            → IsImageWithExtent c (list_in self.new) (extent_in self.new)
            × (start_bytes c ≡ slot_with (start_text (versions_of start.now)))) }
        ensures format { format_in self.new ≡ format_in self.old }
        ensures failed { IfErr result (λ _.
            HasFailed (D.failures (disk_in self.old)) (D.failures (disk_in self.new))) }
    {
        self.dead = true;
        if write_start(&mut self.store, start).is_err() {
            return Err(DeviceFault);
        }
        Ok(())
    }
}

// Whether a command with this event asks for a boot.
fn asks_for_boot(event: &Event) -> bool
    ensures { result ≡ asks_for_boot (event_of event.now) }
{
    matches!(event, Event::RebootOld(_) | Event::RestartInstalled(_))
}

// What a node starts once the release of this version is its permanent one.
fn start_at(alloc: Global, list: &ReleaseList, vsn: &str) -> Result<Start, HandlerError>
    ensures found { IfOk result (λ start. (r : Release)
        × (release_at vsn.now list.now ≡ Some r) × (versions_of start ≡ start_of_release r)) }
    ensures refused { IfErr result (IsStartRefusal vsn.now list.now) }
{
    let Some(release) = list.release(vsn) else {
        return Err(HandlerError::NoSuchRelease);
    };
    Ok(start_of(alloc, release)?)
}

/// What a node with this release as the permanent one starts.
pub fn start_of(alloc: Global, release: &Rel) -> Result<Start, AllocError>
    ensures { IfOk result (λ start. versions_of start ≡ start_of_release (release_of release.now)) }
{
    Ok(Start {
        erts: String::from_str(alloc, release.erts.as_str())?,
        vsn: String::from_str(alloc, release.vsn.as_str())?,
    })
}
