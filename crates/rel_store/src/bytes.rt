// The bytes of records.
ghost use Rattle.std.specs.Prelude.{◌≡◌, ◌+◌, ◌<◌, ◌≤◌, [], ◌∷◌, ◌++◌, length, take, drop, OnOk, OnErr, IfOk, vec_len, vec_capacity};
ghost use Rattle.rel_store.specs.Layout.{new_layout, slot_with};
ghost use Rattle.rel_store.specs.Records.{record_bytes};

use crate::layout::{CLOSED, FIRST_RECORD, MAGIC, NEW_CHOICES, OPEN, RECORD_HEAD, SHORTEST};
use std::alloc::{AllocError, Global};

// Empties the buffer, and makes it hold this many bytes without taking memory again.
pub(crate) fn make_room(
    alloc: Global,
    buffer: &mut Vec<u8>,
    wanted: usize,
) -> Result<(), AllocError>
    ensures empty { OnOk result (buffer.new.items ≡ []) }
    ensures len { OnOk result (vec_len buffer.new ≡ 0) }
    ensures ok { OnOk result (wanted ≤ vec_capacity buffer.new) }
    ensures full { OnErr result (vec_capacity buffer.old < wanted) }
    ensures keeps { vec_capacity buffer.old ≤ vec_capacity buffer.new }
{
    buffer.clear();
    if buffer.capacity() < wanted {
        *buffer = Vec::with_capacity(alloc, wanted)?;
    }
    Ok(())
}

// Appends a record with its gate open, and the closed gate after it.
fn push_record(buffer: &mut Vec<u8>, body: &[u8]) -> Result<(), AllocError>
    requires { length body.now ≤ 16777216 }
    ensures ok { OnOk result
        (buffer.new.items ≡ buffer.old.items ++ (1 ∷ (record_bytes body.now ++ 0 ∷ []))) }
    ensures full { OnErr result
        (vec_capacity buffer.old < vec_len buffer.old + (length body.now + 6)) }
    ensures keeps { vec_capacity buffer.old ≤ vec_capacity buffer.new }
{
    buffer.push(OPEN)?;
    buffer.extend_from_slice(&(body.len() as u32).to_be_bytes())?;
    buffer.extend_from_slice(body)?;
    buffer.push(CLOSED)?;
    Ok(())
}

// Fills the buffer with a record, its gate open, and the closed gate after it.
pub(crate) fn spell_record(
    alloc: Global,
    buffer: &mut Vec<u8>,
    body: &[u8],
) -> Result<(), AllocError>
    requires { length body.now ≤ 16777216 }
    ensures ok { OnOk result (buffer.new.items ≡ 1 ∷ (record_bytes body.now ++ 0 ∷ [])) }
    ensures full { OnErr result (vec_capacity buffer.old < length body.now + 6) }
    ensures keeps { vec_capacity buffer.old ≤ vec_capacity buffer.new }
{
    make_room(alloc, buffer, RECORD_HEAD + body.len() + 1)?;
    push_record(buffer, body)
}

// A new store after its gate: its layout and its first record.
pub(crate) fn spell_store(alloc: Global, first: &[u8], start: &[u8]) -> Result<Vec<u8>, AllocError>
    requires first { length first.now ≤ 16777216 }
    requires start { length start.now ≤ 127 }
    ensures { IfOk result
        (λ bytes. bytes.items ≡ new_layout start.now ++ (1 ∷ (record_bytes first.now ++ 0 ∷ []))) }
{
    let mut bytes = Vec::with_capacity(alloc, SHORTEST + RECORD_HEAD + first.len())?;
    push_layout(&mut bytes, start)?;
    push_record(&mut bytes, first)?;
    Ok(bytes)
}

// Appends the layout of a new store, which is what stands between its gate and its first record.
fn push_layout(buffer: &mut Vec<u8>, start: &[u8]) -> Result<(), AllocError>
    requires { length start.now ≤ 127 }
    ensures { OnOk result (buffer.new.items ≡ buffer.old.items ++ new_layout start.now) }
{
    buffer.extend_from_slice(&MAGIC)?;
    buffer.extend_from_slice(&NEW_CHOICES)?;
    buffer.extend_from_slice(&spell_slot(start))?;
    buffer.extend_from_slice(&[0; 128])?;
    buffer.extend_from_slice(&FIRST_RECORD.to_be_bytes())?;
    buffer.extend_from_slice(&[0; 8])?;
    Ok(())
}

// A start slot with this text.
pub(crate) fn spell_slot(text: &[u8]) -> [u8; 128]
    requires { length text.now ≤ 127 }
    ensures { result ≡ slot_with text.now }
{
    let mut slot = [0; 128];
    slot[0] = text.len() as u8;
    slot[1..text.len() + 1].copy_from_slice(text);
    slot
}

// The body of n bytes in such a buffer, in the same memory. What it doesn't need of that is given back.
pub(crate) fn body_of_record(buffer: Vec<u8>, n: usize) -> Vec<u8>
    requires { 5 + n ≤ vec_len buffer }
    ensures { result.items ≡ take n (drop 5 buffer.items) }
{
    let mut body = buffer;
    body.copy_within(RECORD_HEAD..RECORD_HEAD + n, 0);
    body.truncate(n);
    body.shrink_to_fit();
    body
}
