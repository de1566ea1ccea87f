// What an opening reads of a disk.
ghost use Rattle.std.specs.Prelude.{◌≡◌, ◌≢◌, ◌+◌, ◌<◌, ◌≤◌, map, length, take, drop, true, None, Ok, Err, slice_index, IfOk, IfErr, IfSome};
ghost use Rattle.rel_store.specs.Contents.{DeviceRefused, HasOnlyRead, RecordRefused, RecordsRefused};
ghost use Rattle.rel_store.specs.Records.{is_whole, records_from, space, spelled_length};

use crate::StoreError;
use crate::layout::{
    BASE_SELECTOR, FIRST_RECORD, MAX_BODY, OPEN, RECORD_HEAD, SHORTEST, START_SELECTOR,
    base_slot_of, begins_a_store, body_length, format_of, place_at,
};
use rel_disk::Disk;
use std::alloc::Global;

// The records of a store, the places of the first and of the closed gate after them, and which slots count.
#[derive(Drop)]
pub(crate) struct Contents {
    pub(crate) records: Vec<Vec<u8>>,
    pub(crate) gate: u64,
    pub(crate) second_start: bool,
    pub(crate) base: u64,
    pub(crate) second_base: bool,
    pub(crate) format: u8,
}

// Records, and the place of the closed gate after them.
#[derive(Drop)]
struct Found {
    records: Vec<Vec<u8>>,
    gate: u64,
}

impl Contents {
    ghost use Rattle.rel_store.specs.Contents.{AreContentsOf, OpenRefused};

    // Reads the store on a disk, or says what is wrong with it. Takes memory for the records alone.
    pub(crate) fn read<D: Disk>(alloc: Global, disk: &mut D) -> Result<Contents, StoreError>
        ensures ok { IfOk result (AreContentsOf (D.seen disk.old)) }
        ensures reads { HasOnlyRead D.seen D.may_leave D.moment D.left_since disk.old disk.new }
        ensures unsynced { D.syncs disk.new ≡ D.syncs disk.old }
        ensures counted { D.failures disk.old ≤ D.failures disk.new }
        ensures refused { IfErr result
            (OpenRefused (D.seen disk.old) (D.failures disk.old) (D.failures disk.new)) }
    {
        let len = disk.len()?;
        if len < SHORTEST as u64 {
            return Err(StoreError::NotAStore);
        }
        let mut layout = [0; FIRST_RECORD as usize];
        disk.read(0, &mut layout)?;
        if !begins_a_store(&layout) {
            return Err(StoreError::NotAStore);
        }
        let slot = base_slot_of(&layout);
        let base = place_at(&layout, slot);
        if base < FIRST_RECORD || base >= len {
            return Err(StoreError::Damaged(slot as u64));
        }
        let found = read_records(alloc, disk, base, len)?;
        Ok(Contents {
            records: found.records,
            gate: found.gate,
            second_start: layout[START_SELECTOR] == 1,
            base,
            second_base: layout[BASE_SELECTOR] == 1,
            format: format_of(&layout),
        })
    }
}

// The records from the gate at the base up to the first closed one.
fn read_records<D: Disk>(
    alloc: Global,
    disk: &mut D,
    base: u64,
    len: u64,
) -> Result<Found, StoreError>
    requires within { base < len }
    requires len { len ≡ length (D.seen disk.old) }
    ensures records { IfOk result
        (λ found. records_from base 0 (drop base (D.seen disk.old))
        ≡ Ok (map (λ v. v.items) found.records.items)) }
    ensures gate { IfOk result
        (λ found. found.gate ≡ base + space (map (λ v. v.items) found.records.items)) }
    ensures reads { HasOnlyRead D.seen D.may_leave D.moment D.left_since disk.old disk.new }
    ensures unsynced { D.syncs disk.new ≡ D.syncs disk.old }
    ensures counted { D.failures disk.old ≤ D.failures disk.new }
    ensures refused { IfErr result
        (RecordsRefused (records_from base 0 (drop base (D.seen disk.old))) (D.failures disk.old)
        (D.failures disk.new)) }
{
    let mut records = Vec::new(alloc);
    let mut gate = base;
    while let Some(size) = record_at(disk, gate, len)? {
        let body = read_body(alloc, disk, gate + RECORD_HEAD as u64, size)?;
        records.push(body)?;
        gate += (RECORD_HEAD + size) as u64;
    }
    Ok(Found { records, gate })
}

// The length of the body of the record at this gate, if the gate is open.
fn record_at<D: Disk>(disk: &mut D, gate: u64, len: u64) -> Result<Option<usize>, StoreError>
    requires within { gate < len }
    requires len { len ≡ length (D.seen disk.old) }
    ensures closed { result ≡ Ok None → slice_index (D.seen disk.old) gate ≢ 1 }
    ensures open { IfOk result
        (λ found. IfSome found (λ size. (slice_index (D.seen disk.old) gate ≡ 1)
        × (is_whole (drop (gate + 1) (D.seen disk.old)) ≡ true)
        × (size ≡ spelled_length (drop (gate + 1) (D.seen disk.old))))) }
    ensures reads { HasOnlyRead D.seen D.may_leave D.moment D.left_since disk.old disk.new }
    ensures unsynced { D.syncs disk.new ≡ D.syncs disk.old }
    ensures counted { D.failures disk.old ≤ D.failures disk.new }
    ensures refused { IfErr result
        (RecordRefused (D.seen disk.old) gate (D.failures disk.old) (D.failures disk.new)) }
{
    if len - gate <= RECORD_HEAD as u64 {
        let mut byte = [0];
        disk.read(gate, &mut byte)?;
        if byte[0] == OPEN {
            return Err(StoreError::Damaged(gate));
        }
        return Ok(None);
    }
    let mut head = [0; RECORD_HEAD];
    disk.read(gate, &mut head)?;
    if head[0] != OPEN {
        return Ok(None);
    }
    let size = body_length(&head);
    if size > MAX_BODY || (RECORD_HEAD + size) as u64 >= len - gate {
        return Err(StoreError::Damaged(gate));
    }
    Ok(Some(size))
}

// Reads this many bytes from this place on.
fn read_body<D: Disk>(
    alloc: Global,
    disk: &mut D,
    at: u64,
    size: usize,
) -> Result<Vec<u8>, StoreError>
    requires { at + size ≤ length (D.seen disk.old) }
    ensures ok { IfOk result (λ body. body.items ≡ take size (drop at (D.seen disk.old))) }
    ensures reads { HasOnlyRead D.seen D.may_leave D.moment D.left_since disk.old disk.new }
    ensures unsynced { D.syncs disk.new ≡ D.syncs disk.old }
    ensures counted { D.failures disk.old ≤ D.failures disk.new }
    ensures refused { IfErr result (DeviceRefused (D.failures disk.old) (D.failures disk.new)) }
{
    let mut body = vec![in alloc; 0; size]?;
    disk.read(at, &mut body)?;
    Ok(body)
}
