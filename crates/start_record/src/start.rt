// The start record, and the two calls on it.
ghost use Rattle.std.specs.Prelude.{◌≡◌, ◌↔◌, ◌≤◌, ℕ, true, false, IsErrOf, IfOk, IfErr, OnOk};
ghost use Rattle.rel_disk.specs.Moments.{LeavesOnly};
ghost use Rattle.rel_store.specs.Changed.{LeavesOthers, IsInOtherSlot, with_start};
ghost use Rattle.rel_store.specs.Contents.{HasOnlyRead};
ghost use Rattle.rel_store.specs.Layout.{slot_with};
ghost use Rattle.rel_store.specs.Records.{Stands, StandsWithEither};
ghost use Rattle.rel_store.specs.State.{disk_in, records_in, text_in, base_in, end_in, format_in, has_failed, HasRoom, IsSettled, IsSoundStore};
ghost use Rattle.start_record.specs.Refusals.{ReadRefused, SlotRefused, WriteRefused};
ghost use Rattle.start_record.specs.Text.{Versions, versions_of, AreVersions, AreTooLong, start_text, SpellsStart, SpellsEither};

use crate::StartError;
use crate::error::slot_error;
use crate::text::{spell, versions_in};
use rel_disk::Disk;
use rel_store::Store;
use std::alloc::Global;

// The longest version, in bytes.
const MAX_VERSION: usize = 62;

/// What a node starts.
#[derive(Drop)]
pub struct Start {
    /// The version of the runtime system.
    pub erts: String,
    /// The version of the release.
    pub vsn: String,
}

/// Reads the start that the slot spells. Writes nothing.
///
/// Reported in this order: `MustReopen`, `Device`, `BadStart` where the slot spells none, `NoMemory`. The store works on
/// after the last two.
pub fn read_start<D: Disk>(alloc: Global, store: &mut Store<D>) -> Result<Start, StartError>
    requires { IsSoundStore D.seen D.may_leave store.old }
    ensures sound { IsSoundStore D.seen D.may_leave store.new }
    ensures settled { OnOk result (IsSettled D.seen D.may_leave store.new) }
    ensures read { IfOk result
        (λ start. SpellsStart (text_in D.seen store.old) (versions_of start)) }
    ensures records { records_in store.new ≡ records_in store.old }
    ensures start { text_in D.seen store.new ≡ text_in D.seen store.old }
    ensures only_read { HasOnlyRead D.seen D.may_leave D.moment D.left_since
        (disk_in store.old) (disk_in store.new) }
    ensures base { base_in store.new ≡ base_in store.old }
    ensures end { end_in store.new ≡ end_in store.old }
    ensures format { format_in store.new ≡ format_in store.old }
    ensures room { (n : ℕ) → HasRoom n store.old → HasRoom n store.new }
    ensures any_moment { has_failed store.old ≡ false
        → LeavesOnly D.moment D.left_since (disk_in store.old) (disk_in store.new)
        (Stands (records_in store.old) (text_in D.seen store.old)) }
    ensures counted { D.failures (disk_in store.old) ≤ D.failures (disk_in store.new) }
    ensures reopened { IsErrOf result StartError.MustReopen ↔ (has_failed store.old ≡ true) }
    ensures refused { IfErr result (ReadRefused D.seen D.failures store.old store.new) }
{
    let mut slot = [0; 128];
    match store.read_slot(&mut slot) {
        Ok(()) => start_in(alloc, &slot),
        Err(error) => Err(slot_error(error)),
    }
}

// The start that a slot spells.
fn start_in(alloc: Global, slot: &[u8; 128]) -> Result<Start, StartError>
    ensures read { IfOk result (λ start. SpellsStart slot.now (versions_of start)) }
    ensures refused { IfErr result (SlotRefused slot.now) }
{
    let Some((erts, vsn)) = versions_in(slot) else {
        return Err(StartError::BadStart);
    };
    Ok(Start {
        erts: String::from_str(alloc, erts)?,
        vsn: String::from_str(alloc, vsn)?,
    })
}

/// Writes a start in place of the one that the store has: into the other slot, and then the byte that makes it count. Takes no
/// memory. It is read back where both versions are texts of
/// versions (`spelled`); that they are isn't tested.
///
/// Reported in this order: `TooLong` where a version is longer than 62 bytes, `MustReopen`, `Device`. Nothing has changed
/// after the first two; after `Device` the slot has the old text or the new.
pub fn write_start<D: Disk>(store: &mut Store<D>, start: &Start) -> Result<(), StartError>
    requires { IsSoundStore D.seen D.may_leave store.old }
    ensures sound { IsSoundStore D.seen D.may_leave store.new }
    ensures settled { OnOk result (IsSettled D.seen D.may_leave store.new) }
    ensures written { OnOk result
        (text_in D.seen store.new ≡ slot_with (start_text (versions_of start.now))) }
    ensures spelled { AreVersions (versions_of start.now)
        → OnOk result (SpellsStart (text_in D.seen store.new) (versions_of start.now)) }
    ensures records { records_in store.new ≡ records_in store.old }
    ensures base { base_in store.new ≡ base_in store.old }
    ensures end { end_in store.new ≡ end_in store.old }
    ensures format { format_in store.new ≡ format_in store.old }
    ensures room { (n : ℕ) → HasRoom n store.old → HasRoom n store.new }
    ensures bytes { OnOk result
        (D.seen (disk_in store.new)
        ≡ with_start (start_text (versions_of start.now)) (D.seen (disk_in store.old))) }

    // A crash at any moment of the call leaves the start that was spelled before it or the new one; the old text or the new,
    // with the records; and all bytes as they were but those of the slot that doesn't count and of its selector.
    ensures either { AreVersions (versions_of start.now) → has_failed store.old ≡ false
        → (v : Versions) → SpellsStart (text_in D.seen store.old) v
        → LeavesOnly D.moment D.left_since (disk_in store.old) (disk_in store.new)
        (SpellsEither v (versions_of start.now)) }
    ensures any_moment { has_failed store.old ≡ false
        → LeavesOnly D.moment D.left_since (disk_in store.old) (disk_in store.new)
        (StandsWithEither (records_in store.old) (text_in D.seen store.old)
        (slot_with (start_text (versions_of start.now)))) }
    ensures others { has_failed store.old ≡ false
        → LeavesOnly D.moment D.left_since (disk_in store.old) (disk_in store.new)
        (LeavesOthers (IsInOtherSlot (D.seen (disk_in store.old)))
        (D.seen (disk_in store.old))) }

    ensures counted { D.failures (disk_in store.old) ≤ D.failures (disk_in store.new) }
    ensures long { IsErrOf result StartError.TooLong ↔ AreTooLong (versions_of start.now) }
    ensures reopened { IsErrOf result StartError.MustReopen
        ↔ ((AreTooLong (versions_of start.now) → ⊥) × (has_failed store.old ≡ true)) }
    ensures refused { IfErr result
        (WriteRefused D.failures (versions_of start.now) store.old store.new) }
{
    if start.erts.len() > MAX_VERSION || start.vsn.len() > MAX_VERSION {
        return Err(StartError::TooLong);
    }
    match store.write_slot(spell(start).as_str().as_bytes()) {
        Ok(()) => Ok(()),
        Err(error) => Err(slot_error(error)),
    }
}
