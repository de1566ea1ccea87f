// Where the parts of a store stand, and how they are read.
ghost use Rattle.std.specs.Prelude.{◌≡◌, ◌+◌, ◌≤◌, length, drop, if◌then◌else◌};
ghost use Rattle.std.specs.Int.{w64, from_be_bytes};
ghost use Rattle.rel_store.specs.Layout.{part, has_magic, base_slot, format_of};
ghost use Rattle.rel_store.specs.Records.{spelled_length};

/// The longest body of a record, in bytes.
pub const MAX_BODY: usize = 16_777_216;

/// A store ends at most here, in bytes from the disk's first.
pub const MAX_END: u64 = 67_108_864;

/// What a record takes before its body, its gate and its length, in bytes.
pub const RECORD_HEAD: usize = 5;

// Where the records of a new store begin.
pub(crate) const FIRST_RECORD: u64 = 288;

// A store has its first 288 bytes and a gate.
pub(crate) const SHORTEST: usize = 289;

pub(crate) const OPEN: u8 = 1;

pub(crate) const CLOSED: u8 = 0;

pub(crate) const MAGIC: [u8; 8] = *b"RELSTOR1";

// The gate of a store and the magic.
pub(crate) const BEGINNING: usize = 9;

pub(crate) const START_SELECTOR: usize = 9;

pub(crate) const BASE_SELECTOR: usize = 10;

pub(crate) const FORMAT: usize = 11;

// The selectors of a new store, its format and zeros.
pub(crate) const NEW_CHOICES: [u8; 7] = [0, 0, 2, 0, 0, 0, 0];

// Whether the bytes begin with an open gate and the magic.
pub(crate) fn begins_a_store(bytes: &[u8]) -> bool
    requires { 9 ≤ length bytes.now }
    ensures { result ≡ has_magic bytes.now }
{
    bytes[0] == OPEN && bytes[1..BEGINNING] == MAGIC[..]
}

// The format of a store: 1, or 2.
pub(crate) fn format_of(bytes: &[u8]) -> u8
    requires { 288 ≤ length bytes.now }
    ensures { result ≡ format_of bytes.now }
{
    if bytes[FORMAT] == 0 { 1 } else { 2 }
}

// The place of the base slot that counts.
pub(crate) fn base_slot_of(bytes: &[u8]) -> usize
    requires { 288 ≤ length bytes.now }
    ensures { result ≡ base_slot bytes.now }
{
    base_slot_place(bytes[BASE_SELECTOR] == 1) as usize
}

// The place that is spelled there, greatest byte first.
pub(crate) fn place_at(bytes: &[u8], at: usize) -> u64
    requires { at + 8 ≤ length bytes.now }
    ensures { result ≡ from_be_bytes w64 (part at 8 bytes.now) }
{
    let mut place = [0; 8];
    place.copy_from_slice(&bytes[at..at + 8]);
    u64::from_be_bytes(place)
}

// The length that a gate and the four bytes after it give, greatest byte first.
pub(crate) fn body_length(head: &[u8; 5]) -> usize
    ensures { result ≡ spelled_length (drop 1 head.now) }
{
    let mut length = [0; 4];
    length.copy_from_slice(&head[1..]);
    u32::from_be_bytes(length) as usize
}

// The place of the second start slot, or of the first.
pub(crate) fn slot_place(second: bool) -> u64
    ensures { result ≡ (if second then 144 else 16) }
{
    if second { 144 } else { 16 }
}

// The place of the second base slot, or of the first.
pub(crate) fn base_slot_place(second: bool) -> u64
    ensures { result ≡ (if second then 280 else 272) }
{
    if second { 280 } else { 272 }
}

// The selector that chooses the second of two slots, or the first.
pub(crate) fn selector_of(second: bool) -> u8
    ensures { result ≡ (if second then 1 else 0) }
{
    if second { 1 } else { 0 }
}
