// The parts of a store's layout that an opened store does not give.
ghost use Rattle.std.specs.Prelude.{◌≡◌, ◌≤◌, length, IfOk, slice_index};
ghost use Rattle.rel_store.specs.Layout.{base_of, base_slot, format_of, start_slot};
ghost use Rattle.store_report.specs.Lines.{layout_text};

use crate::lines::push_number;
use std::alloc::{AllocError, Global};

// The selector of the start slot, that of the base slot, and the byte that gives the format.
const START_SELECTOR: usize = 9;

const BASE_SELECTOR: usize = 10;

const FORMAT: usize = 11;

// The text on the layout.
pub(crate) fn layout_text(alloc: Global, bytes: &[u8]) -> Result<Vec<u8>, AllocError>
    requires { 289 ≤ length bytes.now }
    ensures { IfOk result (λ text. text.items ≡ layout_text bytes.now) }
{
    let mut text = Vec::new(alloc);
    push_number(alloc, &mut text, "format", format_of(bytes))?;
    push_number(
        alloc,
        &mut text,
        "start selector",
        u64::from(bytes[START_SELECTOR]),
    )?;
    push_number(alloc, &mut text, "start slot", start_slot(bytes))?;
    push_number(
        alloc,
        &mut text,
        "base selector",
        u64::from(bytes[BASE_SELECTOR]),
    )?;
    push_number(alloc, &mut text, "base slot", base_slot(bytes) as u64)?;
    push_number(alloc, &mut text, "base", base_of(bytes))?;
    Ok(text)
}

fn format_of(bytes: &[u8]) -> u64
    requires { 289 ≤ length bytes.now }
    ensures { result ≡ format_of bytes.now }
{
    if bytes[FORMAT] == 0 { 1 } else { 2 }
}

// The place of the start slot that counts.
fn start_slot(bytes: &[u8]) -> u64
    requires { 289 ≤ length bytes.now }
    ensures { result ≡ start_slot bytes.now }
{
    if bytes[START_SELECTOR] == 1 { 144 } else { 16 }
}

// The place of the base slot that counts.
fn base_slot(bytes: &[u8]) -> usize
    requires { 289 ≤ length bytes.now }
    ensures bound { result ≤ 280 }
    ensures slot { result ≡ base_slot bytes.now }
{
    if bytes[BASE_SELECTOR] == 1 { 280 } else { 272 }
}

// The place of the first record, as that slot gives it, greatest byte first.
pub(crate) fn base_of(bytes: &[u8]) -> u64
    requires { 289 ≤ length bytes.now }
    ensures { result ≡ base_of bytes.now }
{
    let at = base_slot(bytes);
    let mut place = [0; 8];
    place.copy_from_slice(&bytes[at..at + 8]);
    u64::from_be_bytes(place)
}
