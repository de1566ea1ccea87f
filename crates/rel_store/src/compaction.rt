// The records of a store are replaced by one.
ghost use Rattle.std.specs.Prelude.{◌≡◌, ℕ, ◌≤◌, ◌↔◌, [], ◌∷◌, length, take, true, false, IfSome, IsSome, IfErr, IsErr, IsErrOf, OnOk};
ghost use Rattle.rel_disk.specs.Damage.{overwritten, Only};
ghost use Rattle.rel_disk.specs.Moments.{LeavesOnly, HasFailed};
ghost use Rattle.rel_store.specs.Changed.{IsInCompaction, KeepsOthers};
ghost use Rattle.rel_store.specs.Compaction.{compacted, cut_behind, image_end, image_place, with_base_in, EndsEither, FitsImage, IsCutFrom, IsTornInCompaction, StandsOrImage};
ghost use Rattle.rel_store.specs.State.{disk_in, records_in, text_in, base_in, end_in, format_in, has_failed, HasRoom, IsSettled, IsSoundStore, Refused};

use crate::bytes::{body_of_record, spell_record};
use crate::device::{write_and_commit, write_through};
use crate::layout::{
    BASE_SELECTOR, FIRST_RECORD, MAX_BODY, MAX_END, RECORD_HEAD, base_slot_place, selector_of,
};
use crate::{Store, StoreError};
use rel_disk::{DeviceFault, Disk};
use std::alloc::Global;
use std::mem;

impl<D: Disk> Store<D> {
    /// Replaces all records by one, the image. It is put at 288 if it and the closed gate after it end below the old
    /// records, where the disk is cut after it, and else after the store's closed gate. The start text stays. At `Ok` it is
    /// acknowledged: from then on each crash leaves the image alone.
    ///
    /// Reported in this order: `MustReopen`, `Full` where the body is longer than a record's may be, or where the store would
    /// end past its bound, `NoMemory`; nothing has changed then. After `Device` the store has to be opened again, and has
    /// its records or the image alone. What was reserved is used for the image, and stays where that is refused.
    pub fn compact(&mut self, alloc: Global, image: &[u8]) -> Result<(), StoreError>
        requires { IsSoundStore D.seen D.may_leave self.old }
        ensures sound { IsSoundStore D.seen D.may_leave self.new }
        ensures settled { OnOk result (IsSettled D.seen D.may_leave self.new) }
        ensures compacted { OnOk result (records_in self.new ≡ image.now ∷ []) }
        ensures start { OnOk result (text_in D.seen self.new ≡ text_in D.seen self.old) }
        ensures base { OnOk result
            (base_in self.new ≡ image_place (base_in self.old) (end_in self.old)
            (length image.now)) }
        ensures end { OnOk result
            (end_in self.new ≡ image_end (base_in self.old) (end_in self.old)
            (length image.now)) }
        ensures format { format_in self.new ≡ format_in self.old }
        ensures bytes { OnOk result
            (D.seen (disk_in self.new) ≡ compacted (base_in self.new) image.now
            (D.seen (disk_in self.old))) }

        // A crash at any moment of the call leaves the records from before it, in a store that ends where it did, or the
        // image alone, in one that ends after the image; and all bytes as they were but those of the image, of the base
        // slot that doesn't count and of its selector, and those that are cut off.
        ensures any_moment { has_failed self.old ≡ false
            → LeavesOnly D.moment D.left_since (disk_in self.old) (disk_in self.new)
            (StandsOrImage (records_in self.old) image.now (text_in D.seen self.old)) }
        ensures ends { has_failed self.old ≡ false
            → LeavesOnly D.moment D.left_since (disk_in self.old) (disk_in self.new)
            (EndsEither (records_in self.old) (end_in self.old) image.now
            (image_end (base_in self.old) (end_in self.old) (length image.now))
            (text_in D.seen self.old)) }
        ensures others { has_failed self.old ≡ false
            → LeavesOnly D.moment D.left_since (disk_in self.old) (disk_in self.new)
            (KeepsOthers (IsInCompaction (D.seen (disk_in self.old))
            (image_place (base_in self.old) (end_in self.old) (length image.now))
            (length image.now)) (D.seen (disk_in self.old))) }

        ensures counted { D.failures (disk_in self.old) ≤ D.failures (disk_in self.new) }
        ensures full { IsErrOf result StoreError.Full
            ↔ ((has_failed self.old ≡ false)
            × (FitsImage (base_in self.old) (end_in self.old) (length image.now) → ⊥)) }
        ensures room { IsErr result → (n : ℕ) → HasRoom n self.old → HasRoom n self.new }
        ensures reopened { IsErrOf result StoreError.MustReopen ↔ (has_failed self.old ≡ true) }
        ensures refused { IfErr result
            (Refused D.failures
            (FitsImage (base_in self.old) (end_in self.old) (length image.now) → ⊥)
            (HasRoom (length image.now) self.old → ⊥) self.old self.new) }
    {
        if self.must_reopen {
            return Err(StoreError::MustReopen);
        }
        let place = self.place_of_image(image.len()).ok_or(StoreError::Full)?;
        self.records.reserve(1)?;
        spell_record(alloc, &mut self.spare, image)?;
        self.must_reopen = true;
        put_image(&mut self.disk, place, &self.spare, !self.second_base)?;
        self.must_reopen = false;
        self.gate = place + (RECORD_HEAD + image.len()) as u64;
        self.base = place;
        self.second_base = !self.second_base;
        let record = mem::replace(&mut self.spare, Vec::new(alloc));
        self.records.clear();
        self.records
            .push(body_of_record(record, image.len()))
            .unwrap();
        Ok(())
    }

    // Where the image with a body of this many bytes is put, if it fits.
    fn place_of_image(&self, body_len: usize) -> Option<u64>
        ensures place { IfSome result
            (λ place. place ≡ image_place (base_in self.now) (end_in self.now) body_len) }
        ensures fits { IsSome result
            ↔ FitsImage (base_in self.now) (end_in self.now) body_len }
    {
        if body_len > MAX_BODY {
            return None;
        }
        let len = (RECORD_HEAD + body_len + 1) as u64;
        if FIRST_RECORD + len <= self.base {
            return Some(FIRST_RECORD);
        }
        if self.gate >= MAX_END - len {
            return None;
        }
        Some(self.gate + 1)
    }
}

// Writes these bytes at a place that no record has, and makes it the base: the second base slot that chooses it, or the
// first, doesn't count yet. If they stand at 288, the disk is cut after them once no crash can lead back to the old base.
fn put_image<D: Disk>(
    disk: &mut D,
    place: u64,
    bytes: &[u8],
    second: bool,
) -> Result<(), DeviceFault>
    requires place { place ≤ length (D.seen disk.old) }
    requires layout { 288 ≤ length (D.seen disk.old) }
    ensures written { OnOk result
        (D.seen disk.new ≡ cut_behind place (length bytes.now) (with_base_in second place
        (overwritten place bytes.now (D.seen disk.old)))) }
    ensures durable { OnOk result (Only (D.seen disk.new) (D.may_leave disk.new)) }
    ensures any_moment { LeavesOnly D.moment D.left_since disk.old disk.new
        (IsTornInCompaction (D.may_leave disk.old) second place bytes.now (D.seen disk.old)) }
    ensures counted { D.failures disk.old ≤ D.failures disk.new }
    ensures cause { IsErr result → HasFailed (D.failures disk.old) (D.failures disk.new) }
{
    write_through(disk, place, bytes)?;
    write_and_commit(
        disk,
        base_slot_place(second),
        &place.to_be_bytes(),
        BASE_SELECTOR as u64,
        selector_of(second),
    )?;
    if place != FIRST_RECORD {
        return Ok(());
    }
    cut_through(disk, FIRST_RECORD + bytes.len() as u64)
}

// Cuts the disk and syncs. Until it is done, a crash may leave anything from there on.
fn cut_through<D: Disk>(disk: &mut D, len: u64) -> Result<(), DeviceFault>
    requires { len ≤ length (D.seen disk.old) }
    ensures cut { OnOk result (D.seen disk.new ≡ take len (D.seen disk.old)) }
    ensures durable { OnOk result (Only (D.seen disk.new) (D.may_leave disk.new)) }
    ensures any_moment { LeavesOnly D.moment D.left_since disk.old disk.new
        (IsCutFrom (D.may_leave disk.old) len) }
    ensures counted { D.failures disk.old ≤ D.failures disk.new }
    ensures cause { IsErr result → HasFailed (D.failures disk.old) (D.failures disk.new) }
{
    disk.cut(len)?;
    disk.sync()
}
