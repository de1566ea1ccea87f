// A store is opened.
ghost use Rattle.std.specs.Prelude.{◌≡◌, ◌⊎◌, ◌≤◌, IfOk, IfErr, IsErrOf, Ok};
ghost use Rattle.rel_disk.specs.Moments.{LeavesOnly};
ghost use Rattle.rel_store.specs.Contents.{AreContentsOf, HasSynced, OpenRefused, RefusedByDevice};
ghost use Rattle.rel_store.specs.Layout.{format_of};
ghost use Rattle.rel_store.specs.Records.{records_of};
ghost use Rattle.rel_store.specs.State.{disk_of, format_in, records_in, IsSettled, IsSoundStore};

use crate::contents::Contents;
use crate::{Store, StoreError};
use rel_disk::Disk;
use std::alloc::Global;

impl<D: Disk> Store<D> {
    /// Opens the store on a disk. Syncs the disk, reads its layout and its records, each once, and writes nothing. At `Ok`
    /// what was read is what a crash leaves. Takes memory for the records alone.
    ///
    /// Refusals: `Device`, `NoMemory`, `NotAStore`, and `Damaged` at a base slot that gives no place after the layout
    /// and within the disk, or at the open gate of a record that is too long or that the disk ends within; the gate
    /// after a record belongs to it.
    pub fn open_disk(alloc: Global, disk: D) -> Result<Store<D>, (StoreError, D)>
        ensures settled { IfOk result (IsSettled D.seen D.may_leave) }
        ensures sound { IfOk result (IsSoundStore D.seen D.may_leave) }
        ensures records { IfOk result (λ store. records_of (D.seen disk) ≡ Ok (records_in store)) }
        ensures format { IfOk result (λ store. format_in store ≡ format_of (D.seen disk)) }

        // No crash in the call leaves anything that none before it would have left; after it a crash leaves what a read gives,
        // whatever the opening answers, unless its sync took no effect: it answers `Device` then.
        ensures any_moment { LeavesOnly D.moment D.left_since disk (disk_of result)
            (D.may_leave disk) }
        ensures synced { (RefusedByDevice result × (D.syncs (disk_of result) ≡ D.syncs disk))
            ⊎ HasSynced D.Disk disk (disk_of result) }

        ensures counted { D.failures disk ≤ D.failures (disk_of result) }
        ensures refused { IfErr result
            (λ e. OpenRefused (D.seen disk) (D.failures disk) (D.failures e.1) e.0) }
    {
        let mut disk = disk;
        match read_contents(alloc, &mut disk) {
            Ok(contents) => Ok(Store {
                disk,
                records: contents.records,
                gate: contents.gate,
                second_start: contents.second_start,
                base: contents.base,
                second_base: contents.second_base,
                format: contents.format,
                must_reopen: false,
                spare: Vec::new(alloc),
            }),
            Err(error) => Err((error, disk)),
        }
    }
}

// Syncs, and reads what the disk holds.
fn read_contents<D: Disk>(alloc: Global, disk: &mut D) -> Result<Contents, StoreError>
    ensures ok { IfOk result (AreContentsOf (D.seen disk.old)) }
    ensures any_moment { LeavesOnly D.moment D.left_since disk.old disk.new (D.may_leave disk.old) }
    ensures synced { (IsErrOf result StoreError.Device × (D.syncs disk.new ≡ D.syncs disk.old))
        ⊎ HasSynced D.Disk disk.old disk.new }
    ensures counted { D.failures disk.old ≤ D.failures disk.new }
    ensures refused { IfErr result
        (OpenRefused (D.seen disk.old) (D.failures disk.old) (D.failures disk.new)) }
{
    disk.sync()?;
    Contents::read(alloc, disk)
}
