// A store of many records is compacted after a commit.
ghost use Rattle.std.specs.Prelude.{◌≡◌, [], ◌∷◌, true, Some, IfErr, OnOk};
ghost use Rattle.rel_disk.specs.Moments.{HasFailed};
ghost use Rattle.rel_list.specs.Event.{recorded};
ghost use Rattle.rel_records.specs.Image.{image_of};
ghost use Rattle.rel_records.specs.Lists.{Makes};
ghost use Rattle.node_store.specs.Commits.{Compacts, IsCompacted};
ghost use Rattle.node_store.specs.Compaction.{is_long, may_be_compacted};
ghost use Rattle.node_store.specs.Refusals.{reported_compaction};
ghost use Rattle.node_store.specs.State.{disk_in, extent_in, format_in, list_in, is_dead, IsReady};

use crate::NodeStore;
use node_command::HandlerError;
use record_writer::image_body;
use rel_disk::Disk;
use rel_store::StoreError;
use std::alloc::Global;

// A store of so many records is compacted.
const MANY_RECORDS: usize = 64;

impl<D: Disk> NodeStore<D> {
    /// Compacts the store to the image of its list, where it has many records. It stays as it was where memory is refused, and
    /// where there is no image or the image doesn't fit. A command calls it after its last write, while the node is dead. A
    /// list with a one-shot is never compacted, so that the room for the next boot stays.
    pub fn compact(&mut self, alloc: Global) -> Result<(), HandlerError>
        requires ready { IsReady D.seen D.may_leave self.old }
        requires dead { is_dead self.old ≡ true }
        ensures compacts { Compacts D.Disk self.old self.new }
        ensures done { OnOk result (IsCompacted D.Disk self.old self.new) }
        ensures format { format_in self.new ≡ format_in self.old }
        ensures device { IfErr result (λ e. e ≡ HandlerError.Device) }
        ensures failed { IfErr result (λ _.
            HasFailed (D.failures (disk_in self.old)) (D.failures (disk_in self.new))) }
    {
        if !self.may_be_compacted() {
            return Ok(());
        }
        match image_body(alloc, &self.list) {
            Ok(Some(image)) => self.compact_to(alloc, image.as_bytes()),
            Ok(None) => Ok(()),
            Err(_) => Ok(()),
        }
    }

    // Whether its store has many records, and its list no one-shot.
    fn may_be_compacted(&self) -> bool
        ensures { result ≡ may_be_compacted (extent_in self.now) (list_in self.now) }
    {
        self.list.one_shot().is_none() && self.is_long()
    }

    // Whether its store has many records.
    fn is_long(&self) -> bool
        ensures { result ≡ is_long (extent_in self.now) }
    {
        self.store.records().len() >= MANY_RECORDS
    }

    // Compacts the store to this image of its list.
    fn compact_to(&mut self, alloc: Global, image: &[u8]) -> Result<(), HandlerError>
        requires ready { IsReady D.seen D.may_leave self.old }
        requires dead { is_dead self.old ≡ true }
        requires may { may_be_compacted (extent_in self.old) (list_in self.old) ≡ true }
        requires image { image_of (recorded (list_in self.old)) ≡ Some image.now }
        requires makes { Makes (format_in self.old) (image.now ∷ [])
            (recorded (list_in self.old)) }
        ensures compacts { Compacts D.Disk self.old self.new }
        ensures done { OnOk result (IsCompacted D.Disk self.old self.new) }
        ensures format { format_in self.new ≡ format_in self.old }
        ensures device { IfErr result (λ e. e ≡ HandlerError.Device) }
        ensures failed { IfErr result (λ _.
            HasFailed (D.failures (disk_in self.old)) (D.failures (disk_in self.new))) }
    {
        unless_failed(self.store.compact(alloc, image))
    }
}

// What is reported to the command of a compaction: that the device failed, and nothing else.
fn unless_failed(compaction: Result<(), StoreError>) -> Result<(), HandlerError>
    ensures { result ≡ reported_compaction compaction }
{
    match compaction {
        Err(StoreError::Device) => Err(HandlerError::Device),
        Ok(())
        | Err(
            StoreError::NotAStore
            | StoreError::Damaged(_)
            | StoreError::Exists
            | StoreError::Full
            | StoreError::NoMemory
            | StoreError::MustReopen,
        ) => Ok(()),
    }
}
