// A store is made.
ghost use Rattle.std.specs.Prelude.{◌≡◌, ℕ, List, ◌+◌, ◌≤◌, [], ◌∷◌, map, true, false, length, IfOk, IfErr, OnOk, IsErr};
ghost use Rattle.rel_disk.specs.Damage.{overwritten, Only, Within};
ghost use Rattle.rel_disk.specs.Moments.{LeavesOnly, HasFailed};
ghost use Rattle.rel_store.specs.Creation.{new_store, IsBehindGate, IsBegunAt, Creates, IsUnwritten, CreationRefused};
ghost use Rattle.rel_store.specs.Layout.{has_magic, slot_with};
ghost use Rattle.rel_store.specs.State.{disk_in, disk_of, base_in, end_in, format_in, records_in, text_in, Fits, IsSettled, IsSoundStore};

use crate::bytes::spell_store;
use crate::device::{write_and_commit, write_through};
use crate::layout::{BEGINNING, CLOSED, FIRST_RECORD, MAX_BODY, OPEN, RECORD_HEAD, begins_a_store};
use crate::{Store, StoreError};
use rel_disk::{DeviceFault, Disk};
use std::alloc::{AllocError, Global};

impl<D: Disk> Store<D> {
    /// Makes a store of format 2 with one record on a disk that has none, and with this text of at most 127 bytes as its start
    /// slot. What stands on the disk after the store's closed gate stays.
    ///
    /// Reported in this order: `Exists` where the disk begins with an open gate and the magic, `Full` where the record is
    /// longer than a record may be, `NoMemory`. Nothing has been written then. `Device` may come instead of each: once
    /// the first sync has taken effect, whatever it answered, a crash leaves no store, or this one, and before it at most the
    /// first byte was written.
    pub fn create(
        alloc: Global,
        disk: D,
        first: &[u8],
        start: &[u8],
    ) -> Result<Store<D>, (StoreError, D)>
        requires { length start.now ≤ 127 }
        ensures settled { IfOk result (IsSettled D.seen D.may_leave) }
        ensures sound { IfOk result (IsSoundStore D.seen D.may_leave) }
        ensures records { IfOk result (λ store. records_in store ≡ first.now ∷ []) }
        ensures start { IfOk result (λ store. text_in D.seen store ≡ slot_with start.now) }
        ensures bytes { IfOk result
            (λ store. D.seen (disk_in store) ≡ overwritten 0 (new_store first.now start.now)
            (D.seen disk)) }
        ensures fits { OnOk result (Fits 289 (length first.now)) }
        ensures base { IfOk result (λ store. base_in store ≡ 288) }
        ensures format { IfOk result (λ store. format_in store ≡ 2) }
        ensures end { IfOk result (λ store. end_in store ≡ 289 + (5 + length first.now)) }

        // At each moment from the first sync on that took effect, a crash leaves no store, or one with the first record.
        ensures any_moment { Creates D.Disk first.now start.now disk (disk_of result) }
        ensures begun { OnOk result
            ((at : D) × IsBegunAt D.Disk first.now start.now disk (disk_of result) at) }

        ensures taken { has_magic (D.seen disk) ≡ true
            → IfErr result (λ e. IsUnwritten D.seen D.may_leave D.moment D.left_since disk e.1)
            × IsErr result }
        ensures counted { D.failures disk ≤ D.failures (disk_of result) }
        ensures refused { IfErr result
            (λ e. CreationRefused (D.seen disk) first.now (D.failures disk) (D.failures e.1)
            (IsUnwritten D.seen D.may_leave D.moment D.left_since disk e.1) e.0) }
    {
        let mut disk = disk;
        let new = match lay_out(alloc, &mut disk, first, start) {
            Ok(new) => new,
            Err(error) => return Err((error, disk)),
        };
        match write_store(&mut disk, &new.bytes) {
            Ok(()) => Ok(Store {
                disk,
                records: new.records,
                gate: FIRST_RECORD + (RECORD_HEAD + first.len()) as u64,
                second_start: false,
                base: FIRST_RECORD,
                second_base: false,
                format: 2,
                must_reopen: false,
                spare: Vec::new(alloc),
            }),
            Err(DeviceFault) => Err((StoreError::Device, disk)),
        }
    }
}

// A new store before it is written: its bytes after its gate, and its records.
#[derive(Drop)]
struct NewStore {
    bytes: Vec<u8>,
    records: Vec<Vec<u8>>,
}

// Lays a new store out in memory, where the disk has none. Writes nothing.
fn lay_out<D: Disk>(
    alloc: Global,
    disk: &mut D,
    first: &[u8],
    start: &[u8],
) -> Result<NewStore, StoreError>
    requires { length start.now ≤ 127 }
    ensures spelled { IfOk result (λ new. IsBehindGate first.now start.now new.bytes.items) }
    ensures records { IfOk result
        (λ new. map (λ v. v.items) new.records.items ≡ first.now ∷ []) }
    ensures free { OnOk result (has_magic (D.seen disk.old) ≡ false) }
    ensures same { D.seen disk.new ≡ D.seen disk.old }
    ensures unsynced { D.syncs disk.new ≡ D.syncs disk.old }
    ensures crash { Within (D.may_leave disk.old) (D.may_leave disk.new) }
    ensures any_moment { LeavesOnly D.moment D.left_since disk.old disk.new (D.may_leave disk.old) }
    ensures counted { D.failures disk.old ≤ D.failures disk.new }
    ensures refused { IfErr result
        (CreationRefused (D.seen disk.old) first.now (D.failures disk.old) (D.failures disk.new)
        (IsUnwritten D.seen D.may_leave D.moment D.left_since disk.old disk.new)) }
{
    if holds_a_store(disk)? {
        return Err(StoreError::Exists);
    }
    if first.len() > MAX_BODY {
        return Err(StoreError::Full);
    }
    let bytes = spell_store(alloc, first, start)?;
    let records = only_record(alloc, first)?;
    Ok(NewStore { bytes, records })
}

// Writes a store whose bytes after its gate are these: closes the gate, writes them, and opens it.
fn write_store<D: Disk>(disk: &mut D, bytes: &[u8]) -> Result<(), DeviceFault>
    ensures written { OnOk result
        (D.seen disk.new ≡ overwritten 0 (1 ∷ bytes.now) (D.seen disk.old)) }
    ensures durable { OnOk result (Only (D.seen disk.new) (D.may_leave disk.new)) }
    ensures any_moment { (first : List ℕ) → (start : List ℕ) → IsBehindGate first start bytes.now
        → Creates D.Disk first start disk.old disk.new }
    ensures begun { OnOk result
        ((first : List ℕ) → (start : List ℕ) → IsBehindGate first start bytes.now
        → (at : D)
        × IsBegunAt D.Disk first start disk.old disk.new at) }
    ensures counted { D.failures disk.old ≤ D.failures disk.new }
    ensures cause { IsErr result → HasFailed (D.failures disk.old) (D.failures disk.new) }
{
    write_through(disk, 0, &[CLOSED])?;
    write_and_commit(disk, 1, bytes, 0, OPEN)
}

/// Whether the disk begins as one with a store does, with an open gate and the magic, whole or damaged: [`Store::create`]
/// refuses it then. Writes nothing.
pub fn holds_a_store<D: Disk>(disk: &mut D) -> Result<bool, DeviceFault>
    ensures value { IfOk result (λ taken. taken ≡ has_magic (D.seen disk.old)) }
    ensures same { D.seen disk.new ≡ D.seen disk.old }
    ensures unsynced { D.syncs disk.new ≡ D.syncs disk.old }
    ensures crash { Within (D.may_leave disk.old) (D.may_leave disk.new) }
    ensures any_moment { LeavesOnly D.moment D.left_since disk.old disk.new (D.may_leave disk.old) }
    ensures counted { D.failures disk.old ≤ D.failures disk.new }
    ensures cause { IsErr result → HasFailed (D.failures disk.old) (D.failures disk.new) }
{
    if disk.len()? < BEGINNING as u64 {
        return Ok(false);
    }
    let mut beginning = [0; BEGINNING];
    disk.read(0, &mut beginning)?;
    Ok(begins_a_store(&beginning))
}

// The records of a new store.
fn only_record(alloc: Global, first: &[u8]) -> Result<Vec<Vec<u8>>, AllocError>
    ensures { IfOk result (λ records. map (λ v. v.items) records.items ≡ first.now ∷ []) }
{
    Ok(vec![in alloc; Vec::from_slice(alloc, first)?]?)
}
