// A record store on a disk, and the calls on an open one.
ghost use Rattle.std.specs.Prelude.{◌≡◌, ℕ, ◌↔◌, ◌≤◌, ◌+◌, [], ◌∷◌, ◌++◌, map, length, true, false, IsTrue, IsErr, IsErrOf, IfErr, OnOk};
ghost use Rattle.rel_disk.specs.Moments.{LeavesOnly};
ghost use Rattle.rel_store.specs.Changed.{LeavesOthers, IsFormat, IsInRecord, IsInOtherSlot, with_format_2, with_record, with_start};
ghost use Rattle.rel_store.specs.Contents.{HasOnlyRead};
ghost use Rattle.rel_store.specs.Layout.{slot_with};
ghost use Rattle.rel_store.specs.Records.{Stands, StandsEither, StandsWithEither};
ghost use Rattle.rel_store.specs.State.{disk_in, records_in, text_in, gate_in, base_in, end_in, format_in, has_failed, Fits, HasRoom, IsSettled, IsSoundStore, IsSame, Refused};

use crate::StoreError;
use crate::bytes::{body_of_record, make_room, spell_record, spell_slot};
use crate::device::{write_and_commit, write_through};
use crate::layout::{
    FORMAT, MAX_BODY, MAX_END, OPEN, RECORD_HEAD, START_SELECTOR, selector_of, slot_place,
};
use rel_disk::Disk;
use std::alloc::Global;
use std::mem;

/// A store of records, each of which is on the disk once its `append` or its `compact` has answered `Ok`.
#[derive(Drop)]
pub struct Store<D: Disk> {
    pub(crate) disk: D,
    pub(crate) records: Vec<Vec<u8>>,
    // the place of the closed gate after the last record
    pub(crate) gate: u64,
    // the second start slot counts
    pub(crate) second_start: bool,
    // the place of the first record
    pub(crate) base: u64,
    // the second base slot counts
    pub(crate) second_base: bool,
    // 1 or 2
    pub(crate) format: u8,
    pub(crate) must_reopen: bool,
    // memory for the next record
    pub(crate) spare: Vec<u8>,
}

impl<D: Disk> Store<D> {
    /// The disk, with whatever is known of it.
    pub fn into_disk(self) -> D
        ensures { result ≡ disk_in self }
    {
        let Store {
            disk,
            records: _,
            gate: _,
            second_start: _,
            base: _,
            second_base: _,
            format: _,
            must_reopen: _,
            spare: _,
        } = self;
        disk
    }

    /// The bodies of the records, in order.
    pub fn records(&self) -> &[Vec<u8>]
        ensures { map (λ v. v.items) result.now ≡ records_in self.now }
    {
        &self.records
    }

    /// The format of the store: 1 or 2. A store that an earlier version of this library made is of format 1.
    pub fn format(&self) -> u8
        ensures { result ≡ format_in self.now }
    {
        self.format
    }

    /// Whether an `append` of a body of this many bytes wouldn't answer `Full`.
    pub fn fits(&self, body_len: usize) -> bool
        ensures { IsTrue result ↔ Fits (end_in self.now) body_len }
    {
        body_len <= MAX_BODY && self.gate <= MAX_END - (RECORD_HEAD + 1 + body_len) as u64
    }

    /// Takes memory for the next record: after an `Ok` the next `append` of at most `n` bytes isn't refused for memory.
    /// A body is at most `MAX_BODY` bytes, and so is what is reserved. Nothing changes on the disk.
    ///
    /// Refusals: `MustReopen`, `NoMemory`.
    pub fn reserve(&mut self, alloc: Global, n: usize) -> Result<(), StoreError>
        requires { IsSoundStore D.seen D.may_leave self.old }
        ensures sound { IsSoundStore D.seen D.may_leave self.new }
        ensures room { OnOk result ((m : ℕ) → m ≤ n → HasRoom m self.new) }
        ensures keeps { (m : ℕ) → HasRoom m self.old → HasRoom m self.new }
        ensures kept { IsSame self.old self.new }
        ensures reopened { IsErrOf result StoreError.MustReopen ↔ (has_failed self.old ≡ true) }
        ensures refused { IfErr result
            (Refused D.failures ⊥ (HasRoom n self.old → ⊥) self.old self.new) }
    {
        if self.must_reopen {
            return Err(StoreError::MustReopen);
        }
        self.records.reserve(1)?;
        make_room(alloc, &mut self.spare, n.min(MAX_BODY) + RECORD_HEAD + 1)?;
        Ok(())
    }

    /// Adds a record. At `Ok` it is acknowledged: from then on each crash leaves a store that has it.
    ///
    /// Reported in this order: `MustReopen`, `Full` where `fits` says so, `NoMemory`; nothing has changed then. After
    /// `Device` the store has to be opened again, and has its records, with the new one or without. What was reserved is used
    /// for the record, and stays where that is refused.
    pub fn append(&mut self, alloc: Global, body: &[u8]) -> Result<(), StoreError>
        requires { IsSoundStore D.seen D.may_leave self.old }
        ensures sound { IsSoundStore D.seen D.may_leave self.new }
        ensures settled { OnOk result (IsSettled D.seen D.may_leave self.new) }
        ensures added { OnOk result (records_in self.new ≡ records_in self.old ++ body.now ∷ []) }
        ensures start { OnOk result (text_in D.seen self.new ≡ text_in D.seen self.old) }
        ensures base { base_in self.new ≡ base_in self.old }
        ensures end { OnOk result (end_in self.new ≡ end_in self.old + (5 + length body.now)) }
        ensures format { format_in self.new ≡ format_in self.old }
        ensures bytes { OnOk result
            (D.seen (disk_in self.new) ≡ with_record (gate_in self.old) body.now
            (D.seen (disk_in self.old))) }

        // A crash at any moment of the call leaves the records from before it, with the new one or without, and all bytes
        // as they were but those of the record.
        ensures any_moment { has_failed self.old ≡ false
            → LeavesOnly D.moment D.left_since (disk_in self.old) (disk_in self.new)
            (StandsEither (records_in self.old) body.now (text_in D.seen self.old)) }
        ensures others { has_failed self.old ≡ false
            → LeavesOnly D.moment D.left_since (disk_in self.old) (disk_in self.new)
            (LeavesOthers (IsInRecord (gate_in self.old) (length body.now))
            (D.seen (disk_in self.old))) }

        ensures counted { D.failures (disk_in self.old) ≤ D.failures (disk_in self.new) }
        ensures full { IsErrOf result StoreError.Full
            ↔ ((has_failed self.old ≡ false) × (Fits (end_in self.old) (length body.now) → ⊥)) }
        ensures room { IsErr result → (n : ℕ) → HasRoom n self.old → HasRoom n self.new }
        ensures reopened { IsErrOf result StoreError.MustReopen ↔ (has_failed self.old ≡ true) }
        ensures refused { IfErr result
            (Refused D.failures (Fits (end_in self.old) (length body.now) → ⊥)
            (HasRoom (length body.now) self.old → ⊥) self.old self.new) }
    {
        if self.must_reopen {
            return Err(StoreError::MustReopen);
        }
        if !self.fits(body.len()) {
            return Err(StoreError::Full);
        }
        self.records.reserve(1)?;
        spell_record(alloc, &mut self.spare, body)?;
        self.must_reopen = true;
        write_and_commit(
            &mut self.disk,
            self.gate + 1,
            &self.spare[1..],
            self.gate,
            OPEN,
        )?;
        self.must_reopen = false;
        self.gate += (RECORD_HEAD + body.len()) as u64;
        let record = mem::replace(&mut self.spare, Vec::new(alloc));
        self.records
            .push(body_of_record(record, body.len()))
            .unwrap();
        Ok(())
    }

    /// Reads the start slot that counts: its length byte, its text and what stands after that. Takes no memory.
    ///
    /// Refusals: `MustReopen`, `Device`.
    pub fn read_slot(&mut self, slot: &mut [u8; 128]) -> Result<(), StoreError>
        requires { IsSoundStore D.seen D.may_leave self.old }
        ensures sound { IsSoundStore D.seen D.may_leave self.new }
        ensures settled { OnOk result (IsSettled D.seen D.may_leave self.new) }
        ensures read { OnOk result (slot.new ≡ text_in D.seen self.old) }
        ensures records { records_in self.new ≡ records_in self.old }
        ensures start { text_in D.seen self.new ≡ text_in D.seen self.old }
        ensures only_read { HasOnlyRead D.seen D.may_leave D.moment D.left_since
            (disk_in self.old) (disk_in self.new) }
        ensures base { base_in self.new ≡ base_in self.old }
        ensures end { end_in self.new ≡ end_in self.old }
        ensures format { format_in self.new ≡ format_in self.old }
        ensures room { (n : ℕ) → HasRoom n self.old → HasRoom n self.new }
        ensures any_moment { has_failed self.old ≡ false
            → LeavesOnly D.moment D.left_since (disk_in self.old) (disk_in self.new)
            (Stands (records_in self.old) (text_in D.seen self.old)) }
        ensures counted { D.failures (disk_in self.old) ≤ D.failures (disk_in self.new) }
        ensures reopened { IsErrOf result StoreError.MustReopen ↔ (has_failed self.old ≡ true) }
        ensures refused { IfErr result (Refused D.failures ⊥ ⊥ self.old self.new) }
    {
        if self.must_reopen {
            return Err(StoreError::MustReopen);
        }
        self.must_reopen = true;
        self.disk.read(slot_place(self.second_start), slot)?;
        self.must_reopen = false;
        Ok(())
    }

    /// Writes the start slot: this text of at most 127 bytes, after its length and before zeros. Takes no memory.
    ///
    /// Refusals: `MustReopen`, `Device`.
    pub fn write_slot(&mut self, text: &[u8]) -> Result<(), StoreError>
        requires sound { IsSoundStore D.seen D.may_leave self.old }
        requires short { length text.now ≤ 127 }
        ensures sound { IsSoundStore D.seen D.may_leave self.new }
        ensures settled { OnOk result (IsSettled D.seen D.may_leave self.new) }
        ensures written { OnOk result (text_in D.seen self.new ≡ slot_with text.now) }
        ensures records { records_in self.new ≡ records_in self.old }
        ensures base { base_in self.new ≡ base_in self.old }
        ensures end { end_in self.new ≡ end_in self.old }
        ensures format { format_in self.new ≡ format_in self.old }
        ensures room { (n : ℕ) → HasRoom n self.old → HasRoom n self.new }
        ensures bytes { OnOk result
            (D.seen (disk_in self.new) ≡ with_start text.now (D.seen (disk_in self.old))) }

        // A crash at any moment of the call leaves the old text or the new one, and the records, and all bytes as they were
        // but those of the slot that doesn't count and of its selector.
        ensures any_moment { has_failed self.old ≡ false
            → LeavesOnly D.moment D.left_since (disk_in self.old) (disk_in self.new)
            (StandsWithEither (records_in self.old) (text_in D.seen self.old)
            (slot_with text.now)) }
        ensures others { has_failed self.old ≡ false
            → LeavesOnly D.moment D.left_since (disk_in self.old) (disk_in self.new)
            (LeavesOthers (IsInOtherSlot (D.seen (disk_in self.old))) (D.seen (disk_in self.old))) }

        ensures counted { D.failures (disk_in self.old) ≤ D.failures (disk_in self.new) }
        ensures reopened { IsErrOf result StoreError.MustReopen ↔ (has_failed self.old ≡ true) }
        ensures refused { IfErr result (Refused D.failures ⊥ ⊥ self.old self.new) }
    {
        if self.must_reopen {
            return Err(StoreError::MustReopen);
        }
        let second = !self.second_start;
        self.must_reopen = true;
        write_and_commit(
            &mut self.disk,
            slot_place(second),
            &spell_slot(text),
            START_SELECTOR as u64,
            selector_of(second),
        )?;
        self.second_start = second;
        self.must_reopen = false;
        Ok(())
    }

    /// Makes the store one of format 2, and after an `Ok` a crash leaves it one. The records and the start text stay as they
    /// are at every moment. Takes no memory, and writes nothing where the store is one of format 2 already.
    ///
    /// Refusals: `MustReopen`, `Device`.
    pub fn to_format_2(&mut self) -> Result<(), StoreError>
        requires { IsSoundStore D.seen D.may_leave self.old }
        ensures sound { IsSoundStore D.seen D.may_leave self.new }
        ensures settled { OnOk result (IsSettled D.seen D.may_leave self.new) }
        ensures format { OnOk result (format_in self.new ≡ 2) }
        ensures bytes { OnOk result (D.seen (disk_in self.new)
            ≡ with_format_2 (format_in self.old) (D.seen (disk_in self.old))) }
        ensures records { records_in self.new ≡ records_in self.old }
        ensures start { OnOk result (text_in D.seen self.new ≡ text_in D.seen self.old) }
        ensures base { base_in self.new ≡ base_in self.old }
        ensures end { end_in self.new ≡ end_in self.old }
        ensures room { (n : ℕ) → HasRoom n self.old → HasRoom n self.new }

        // A crash at any moment of the call leaves the records and the start text, and all bytes as they were but, in a store of
        // format 1, the one that gives the format.
        ensures any_moment { has_failed self.old ≡ false
            → LeavesOnly D.moment D.left_since (disk_in self.old) (disk_in self.new)
            (Stands (records_in self.old) (text_in D.seen self.old)) }
        ensures others { has_failed self.old ≡ false
            → LeavesOnly D.moment D.left_since (disk_in self.old) (disk_in self.new)
            (LeavesOthers (IsFormat (format_in self.old)) (D.seen (disk_in self.old))) }

        ensures counted { D.failures (disk_in self.old) ≤ D.failures (disk_in self.new) }
        ensures reopened { IsErrOf result StoreError.MustReopen ↔ (has_failed self.old ≡ true) }
        ensures refused { IfErr result (Refused D.failures ⊥ ⊥ self.old self.new) }
    {
        if self.must_reopen {
            return Err(StoreError::MustReopen);
        }
        if self.format == 2 {
            return Ok(());
        }
        self.must_reopen = true;
        write_through(&mut self.disk, FORMAT as u64, &[2])?;
        self.format = 2;
        self.must_reopen = false;
        Ok(())
    }
}
