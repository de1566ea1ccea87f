//! The bytes that a text stands for, and a text within another.
ghost use Rattle.std.specs.Prelude.{◌<◌, IfSome};

use std::alloc::{AllocError, Global};

/// The bytes that a text stands for. Nothing where a `~` begins neither of its two forms.
pub fn bytes_of(alloc: Global, text: &str) -> Result<Option<Vec<u8>>, AllocError> {
    let mut bytes = Vec::new(alloc);
    for (i, part) in text.split('~').enumerate() {
        if i == 0 {
            bytes.extend_from_slice(part.as_bytes())?;
        } else if !add_form(&mut bytes, part)? {
            return Ok(None);
        }
    }
    Ok(Some(bytes))
}

// Appends what stands after a `~`, if it is one of the two forms.
fn add_form(bytes: &mut Vec<u8>, part: &str) -> Result<bool, AllocError> {
    match part.strip_prefix('(') {
        Some(copies) => add_copies(bytes, copies),
        None => add_byte(bytes, part.as_bytes()),
    }
}

// Appends the copies of `N TEXT)`, and what follows.
fn add_copies(bytes: &mut Vec<u8>, copies: &str) -> Result<bool, AllocError> {
    let Some((form, rest)) = copies.split_once(')') else {
        return Ok(false);
    };
    let Some((count, text)) = form.split_once(' ') else {
        return Ok(false);
    };
    let Ok(count) = count.parse::<u16>() else {
        return Ok(false);
    };
    add_times(bytes, text.as_bytes(), count)?;
    bytes.extend_from_slice(rest.as_bytes())?;
    Ok(true)
}

// Appends this many copies of a text.
fn add_times(bytes: &mut Vec<u8>, text: &[u8], count: u16) -> Result<(), AllocError> {
    for _ in 0..count {
        bytes.extend_from_slice(text)?;
    }
    Ok(())
}

// Appends the byte of two hexadecimal digits, and what follows.
fn add_byte(bytes: &mut Vec<u8>, part: &[u8]) -> Result<bool, AllocError> {
    let [high, low, rest @ ..] = part else {
        return Ok(false);
    };
    let (Some(high), Some(low)) = (digit(*high), digit(*low)) else {
        return Ok(false);
    };
    bytes.push(high * 16 + low)?;
    bytes.extend_from_slice(rest)?;
    Ok(true)
}

// What a hexadecimal digit counts.
fn digit(byte: u8) -> Option<u8>
    ensures { IfSome result (λ d. d < 16) }
{
    match byte {
        b'0'..=b'9' => Some(byte - b'0'),
        b'A'..=b'F' => Some(byte - b'A' + 10),
        _ => None,
    }
}

/// A text with what stands before it and what stands after it.
pub fn enclosed(
    alloc: Global,
    before: &[u8],
    text: &[u8],
    behind: &[u8],
) -> Result<Vec<u8>, AllocError> {
    let mut bytes = Vec::from_slice(alloc, before)?;
    bytes.extend_from_slice(text)?;
    bytes.extend_from_slice(behind)?;
    Ok(bytes)
}
