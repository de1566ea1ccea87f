// The report on the bytes of a store's file.
ghost use Rattle.std.specs.Prelude.{◌≡◌, ◌≤◌, ◌<◌, ◌+◌, ◌^◌, ◌++◌, length, map, Ok, Err, IfOk, OnOk};
ghost use Rattle.rel_store.specs.Layout.{format_of, text_of};
ghost use Rattle.rel_store.specs.Records.{records_of, space};
ghost use Rattle.rel_store.specs.State.{records_in, text_in, format_in, IsSoundStore};
ghost use Rattle.store_report.specs.Contents.{before_damage, ShowsHeld};
ghost use Rattle.store_report.specs.Lines.{damage_text, damage_words, no_store_text, room_text};
ghost use Rattle.store_report.specs.Report.{IsReportOf, IsOfStore, IsOfDamage, IsOfNoStore, IsOfBytes, RefusesSo};

use crate::contents::{gate_after, push_contents};
use crate::layout::{base_of, layout_text};
use crate::lines::{push_number, push_text};
use crate::releases::push_list;
use rel_disk::{Disk, MemDisk};
use rel_store::{MAX_END, Store, StoreError};
use std::alloc::{AllocError, Global};

/// The most bytes of a store's file.
pub const MOST_BYTES: usize = 67_108_864;

// The bytes of the log of a disk in memory: room for the one sync of an opening.
const LOG: usize = 64;

/// What is reported of a store's bytes.
#[derive(Drop)]
pub struct Report {
    /// Lines of ASCII, but for versions.
    pub text: Vec<u8>,
    /// A boot of these bytes finds a list: neither the store is damaged, nor a record bad.
    pub is_sound: bool,
}

/// The report on these bytes, with each record or without. It is what a boot of the bytes would go by: what an opening gives, the
/// start, and the list that the records make. The bytes are copied to a disk in memory, and never written. So the one refusal
/// is that no memory was left.
pub fn report_of(alloc: Global, bytes: &[u8], each_record: bool) -> Result<Report, AllocError>
    requires { length bytes.now ≤ 67108864 }
    ensures { IfOk result (IsReportOf each_record bytes.now) }
{
    let disk = MemDisk::with_bytes(alloc, bytes, bytes.len(), LOG)?;
    report_on(alloc, bytes, disk, each_record)
}

// The report on the bytes of a disk.
fn report_on<D: Disk + Drop>(
    alloc: Global,
    bytes: &[u8],
    disk: D,
    each_record: bool,
) -> Result<Report, AllocError>
    requires seen { D.seen disk ≡ bytes.now }
    requires short { length bytes.now ≤ 67108864 }
    ensures { IfOk result (IsReportOf each_record bytes.now) }
{
    match Store::open_disk(alloc, disk) {
        Ok(mut store) => report_store(alloc, bytes, &mut store, each_record),
        Err((error, _disk)) => report_refusal(alloc, bytes, error, each_record),
    }
}

// The report on the bytes of an undamaged store.
fn report_store<D: Disk>(
    alloc: Global,
    bytes: &[u8],
    store: &mut Store<D>,
    each_record: bool,
) -> Result<Report, AllocError>
    requires sound { IsSoundStore D.seen D.may_leave store.old }
    requires held { records_of bytes.now ≡ Ok (records_in store.old) }
    requires slot { text_in D.seen store.old ≡ text_of bytes.now }
    requires format { format_in store.old ≡ format_of bytes.now }
    requires short { length bytes.now ≤ 67108864 }
    ensures { IfOk result (IsOfStore each_record bytes.now (records_in store.old)) }
{
    let mut text = layout_text(alloc, bytes)?;
    push_contents(alloc, &mut text, bytes, store, each_record)?;
    push_room(alloc, &mut text, end_of(base_of(bytes), store.records()))?;
    let is_sound = push_list(alloc, &mut text, store.format(), store.records())?;
    Ok(Report { text, is_sound })
}

// Where a store ends whose first record stands at the base: one past its closed gate.
fn end_of(base: u64, records: &[Vec<u8>]) -> u64
    requires { base + space (map (λ v. v.items) records.now) < 67108864 }
    ensures { result ≡ base + space (map (λ v. v.items) records.now) + 1 }
{
    let mut gate = base;
    for record in records {
        gate = gate_after(gate, record.as_slice());
    }
    gate + 1
}

// Puts at the end how many bytes a store uses that ends there, and how many are left.
fn push_room(alloc: Global, text: &mut Vec<u8>, end: u64) -> Result<(), AllocError>
    requires { end ≤ 67108864 }
    ensures { OnOk result (text.new.items ≡ text.old.items ++ room_text end) }
{
    push_number(alloc, text, "used", end)?;
    push_number(alloc, text, "left", MAX_END - end)?;
    Ok(())
}

// The report on bytes that an opening refuses for this.
fn report_refusal(
    alloc: Global,
    bytes: &[u8],
    error: StoreError,
    each_record: bool,
) -> Result<Report, AllocError>
    requires refused { RefusesSo bytes.now error }
    requires short { length bytes.now ≤ 67108864 }
    ensures { IfOk result (IsReportOf each_record bytes.now) }
{
    match error {
        StoreError::NotAStore => report_no_store(alloc, bytes),
        StoreError::Damaged(at) => report_damage(alloc, bytes, at, each_record),
        _ => Err(AllocError),
    }
}

// The report on bytes that are no store.
fn report_no_store(alloc: Global, bytes: &[u8]) -> Result<Report, AllocError>
    ensures { IfOk result (IsOfNoStore bytes.now) }
{
    let mut text = Vec::new(alloc);
    push_text(&mut text, no_store_text(bytes))?;
    Ok(Report {
        text,
        is_sound: false,
    })
}

// Why bytes are no store.
fn no_store_text(bytes: &[u8]) -> &'static str
    ensures { result.now ≡ no_store_text bytes.now }
{
    if bytes.len() < 289 {
        "no store: fewer than 289 bytes\n"
    } else {
        "no store: no open gate and RELSTOR1 at the start\n"
    }
}

// The report on the bytes of a store that is damaged there.
fn report_damage(
    alloc: Global,
    bytes: &[u8],
    at: u64,
    each_record: bool,
) -> Result<Report, AllocError>
    requires damaged { records_of bytes.now ≡ Err (StoreError.Damaged at) }
    requires short { length bytes.now ≤ 67108864 }
    ensures { IfOk result (IsOfDamage each_record bytes.now at) }
{
    let mut text = layout_text(alloc, bytes)?;
    push_before(alloc, &mut text, bytes, at, each_record)?;
    push_damage(alloc, &mut text, at)?;
    Ok(Report {
        text,
        is_sound: false,
    })
}

// Puts at the end what stands before a damaged place.
fn push_before(
    alloc: Global,
    text: &mut Vec<u8>,
    bytes: &[u8],
    at: u64,
    each_record: bool,
) -> Result<(), AllocError>
    requires { length bytes.now ≤ 67108864 }
    ensures { OnOk result (ShowsHeld each_record (before_damage at bytes.now)
        (records_of (before_damage at bytes.now)) text.old.items text.new.items) }
{
    let end = (at as usize).min(bytes.len());
    let mut before = Vec::from_slice(alloc, &bytes[..end])?;
    before.push(0)?;
    let disk = MemDisk::with_bytes(alloc, before.as_slice(), before.len(), LOG)?;
    push_held(alloc, text, before.as_slice(), disk, each_record)
}

// Puts the contents of the store at the end that the bytes of a disk hold; nothing, where an opening refuses them.
fn push_held<D: Disk + Drop>(
    alloc: Global,
    text: &mut Vec<u8>,
    bytes: &[u8],
    disk: D,
    each_record: bool,
) -> Result<(), AllocError>
    requires seen { D.seen disk ≡ bytes.now }
    requires short { length bytes.now < 2 ^ 32 }
    ensures { OnOk result (ShowsHeld each_record bytes.now (records_of bytes.now)
        text.old.items text.new.items) }
{
    match Store::open_disk(alloc, disk) {
        Ok(mut store) => push_contents(alloc, text, bytes, &mut store, each_record),
        Err((error, _disk)) => of_bytes(error),
    }
}

// Whether an opening was refused for the bytes alone.
fn of_bytes(error: StoreError) -> Result<(), AllocError>
    ensures { OnOk result (IsOfBytes error) }
{
    match error {
        StoreError::NotAStore | StoreError::Damaged(_) => Ok(()),
        _ => Err(AllocError),
    }
}

// Puts a damaged place at the end, and what is wrong there.
fn push_damage(alloc: Global, text: &mut Vec<u8>, at: u64) -> Result<(), AllocError>
    ensures { OnOk result (text.new.items ≡ text.old.items ++ damage_text at) }
{
    push_number(alloc, text, "damaged at", at)?;
    push_text(text, damage_words(at))?;
    Ok(())
}

// What is wrong at a damaged place: in the layout it is that of the base.
fn damage_words(at: u64) -> &'static str
    ensures { result.now ≡ damage_words at }
{
    if at < 288 {
        "the base is outside of the store\n"
    } else {
        "an open gate before no whole record\n"
    }
}
