// The start and the records of a store, as a report shows them.
ghost use Rattle.std.specs.Prelude.{◌≡◌, ◌<◌, ◌+◌, ◌^◌, ◌++◌, length, map, Ok, IfOk, OnOk};
ghost use Rattle.rel_store.specs.Layout.{text_of};
ghost use Rattle.rel_store.specs.Records.{records_of, space};
ghost use Rattle.rel_store.specs.State.{records_in, text_in, format_in, IsSoundStore};
ghost use Rattle.start_record.specs.Text.{versions_of};
ghost use Rattle.store_report.specs.Contents.{Starts, start_of, ShowsContents};
ghost use Rattle.store_report.specs.Lines.{record_head, record_text, records_text, start_line, versions_line};

use crate::layout::base_of;
use crate::lines::{push_number, push_shown, push_text};
use rel_disk::Disk;
use rel_store::{RECORD_HEAD, Store};
use start_record::{Start, StartError, read_start};
use std::alloc::{AllocError, Global};

// Puts the start at the end of a store with these bytes, and its records, where each is to be shown.
pub(crate) fn push_contents<D: Disk>(
    alloc: Global,
    text: &mut Vec<u8>,
    bytes: &[u8],
    store: &mut Store<D>,
    each_record: bool,
) -> Result<(), AllocError>
    requires sound { IsSoundStore D.seen D.may_leave store.old }
    requires held { records_of bytes.now ≡ Ok (records_in store.old) }
    requires slot { text_in D.seen store.old ≡ text_of bytes.now }
    requires short { length bytes.now < 2 ^ 32 }
    ensures contents { OnOk result (ShowsContents each_record bytes.now (records_in store.old)
        text.old.items text.new.items) }
    ensures records { records_in store.new ≡ records_in store.old }
    ensures format { format_in store.new ≡ format_in store.old }
{
    let start = start_in(alloc, store)?;
    push_start(alloc, text, &start)?;
    if each_record {
        push_records(alloc, text, base_of(bytes), store.records())?;
        return Ok(());
    }
    Ok(())
}

// The start that the slot spells which counts, if it spells one.
fn start_in<D: Disk>(alloc: Global, store: &mut Store<D>) -> Result<Option<Start>, AllocError>
    requires { IsSoundStore D.seen D.may_leave store.old }
    ensures start { IfOk result (λ start. Starts (text_in D.seen store.old) (start_of start)) }
    ensures records { records_in store.new ≡ records_in store.old }
    ensures format { format_in store.new ≡ format_in store.old }
{
    match read_start(alloc, store) {
        Ok(start) => Ok(Some(start)),
        Err(StartError::BadStart) => Ok(None),
        Err(_) => Err(AllocError),
    }
}

// Puts the line of a start at the end.
fn push_start(alloc: Global, text: &mut Vec<u8>, start: &Option<Start>) -> Result<(), AllocError>
    ensures { OnOk result (text.new.items ≡ text.old.items ++ start_line (start_of start.now)) }
{
    match start {
        None => push_text(text, "no start\n"),
        Some(start) => push_versions(alloc, text, start),
    }
}

fn push_versions(alloc: Global, text: &mut Vec<u8>, start: &Start) -> Result<(), AllocError>
    ensures { OnOk result
        (text.new.items ≡ text.old.items ++ versions_line (versions_of start.now)) }
{
    let erts = start.erts.as_str();
    let vsn = start.vsn.as_str();
    let line = format!(in alloc; "start {erts} {vsn}\n")?;
    push_text(text, line.as_str())
}

// Puts records at the end, each with its number and its place. The first stands at the base.
fn push_records(
    alloc: Global,
    text: &mut Vec<u8>,
    base: u64,
    records: &[Vec<u8>],
) -> Result<(), AllocError>
    requires { base + space (map (λ v. v.items) records.now) < 2 ^ 32 }
    ensures { OnOk result (text.new.items
        ≡ text.old.items ++ records_text 1 base (map (λ v. v.items) records.now)) }
{
    let mut at = base;
    for (i, record) in records.iter().enumerate() {
        let body = record.as_slice();
        let next = gate_after(at, body);
        push_record(alloc, text, i as u64 + 1, at, body)?;
        at = next;
    }
    Ok(())
}

// The place of the gate after a record at this place.
pub(crate) fn gate_after(at: u64, body: &[u8]) -> u64
    requires { at + (5 + length body.now) < 2 ^ 32 }
    ensures { result ≡ at + (5 + length body.now) }
{
    at + (RECORD_HEAD + body.len()) as u64
}

// Puts a record at the end: its number, the place of its gate, its length and its body.
fn push_record(
    alloc: Global,
    text: &mut Vec<u8>,
    number: u64,
    at: u64,
    body: &[u8],
) -> Result<(), AllocError>
    ensures { OnOk result (text.new.items ≡ text.old.items ++ record_text number at body.now) }
{
    push_head(alloc, text, number, at, body.len())?;
    push_shown(text, body)?;
    push_text(text, "\n")?;
    Ok(())
}

fn push_head(
    alloc: Global,
    text: &mut Vec<u8>,
    number: u64,
    at: u64,
    size: usize,
) -> Result<(), AllocError>
    ensures { OnOk result (text.new.items ≡ text.old.items ++ record_head number at size) }
{
    let head = format!(in alloc; "record {number}\nopen gate {at}\nlength {size}\nbody ")?;
    push_text(text, head.as_str())
}
