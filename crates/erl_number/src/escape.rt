//! What stands after a backslash.
ghost use Rattle.std.specs.Prelude.{◌≡◌, ℕ, ◌+◌, ◌-◌, ◌<◌, ◌^◌, ◌||◌, drop, slice_get, slice_index};
ghost use Rattle.std.specs.Str.{IsCharBoundary};
ghost use Rattle.erl_number.specs.Escapes.{is_in, escape, octal as octal_escape, hexadecimal as hexadecimal_escape, braced as braced_escape, paired as paired_escape, caret as caret_escape, by_name as by_name_escape, letter_character, scalar as scalar_character};
ghost use Rattle.erl_number.specs.Views.{text_bytes};
ghost use Rattle.erl_number.specs.Scanned.{byte_in, character_value, digit_in, EndsAt, EndsBehind};

use crate::digits::{Digits, digit_at, read_digits};
use crate::text::Text;

/// What bytes spell as a character.
#[derive(Clone, Copy)]
pub enum Escaped {
    /// The character, and the place after it.
    Means(char, usize),
    /// None.
    Senseless,
    /// The text ends within it.
    Unfinished,
}

/// What stands after a backslash, from this place on.
pub fn escape_at(text: Text<'_>, at: usize) -> Escaped
    requires { IsCharBoundary text.valid.now at }
    ensures is { character_value at result ≡ escape (drop at (text_bytes text.entry)) }
    ensures ends { EndsBehind text.entry at result }
{
    if let Some(first) = digit_at(text, at, 8) {
        return octal(text, at, first);
    }
    match text.byte(at) {
        Some(b'x') => hexadecimal(text, at),
        Some(b'^') => caret(text, at),
        Some(byte) => by_name(text, at, byte),
        None => Escaped::Unfinished,
    }
}

/// One to three octal digits, of which this is the first.
fn octal(text: Text<'_>, at: usize, first: u8) -> Escaped
    requires first { digit_in 8 (slice_get (text_bytes text) at) ≡ Some first }
    requires room { at < 2 ^ 63 }
    requires cut { IsCharBoundary text.valid.now (at + 1) }
    ensures is { character_value at result ≡ octal_escape (drop at (text_bytes text.entry)) }
    ensures ends { EndsBehind text.entry at result }
{
    let Some(second) = digit_at(text, at + 1, 8) else {
        return scalar(u64::from(first), at + 1);
    };
    let Some(third) = digit_at(text, at + 2, 8) else {
        return scalar(u64::from(first) * 8 + u64::from(second), at + 2);
    };
    let code = (u64::from(first) * 8 + u64::from(second)) * 8 + u64::from(third);
    scalar(code, at + 3)
}

/// An escape in hexadecimal, at its `x`.
fn hexadecimal(text: Text<'_>, at: usize) -> Escaped
    requires { at < 2 ^ 63 }
    ensures is { character_value at result
        ≡ hexadecimal_escape (drop (at + 1) (text_bytes text.entry)) }
    ensures ends { EndsBehind text.entry at result }
{
    match text.byte(at + 1) {
        Some(b'{') => braced(text, at),
        Some(_) => match digit_at(text, at + 1, 16) {
            Some(first) => paired(text, at, first),
            None => Escaped::Senseless,
        },
        None => Escaped::Unfinished,
    }
}

/// Two hexadecimal digits, of which this is the first, after an `x` at this place.
fn paired(text: Text<'_>, at: usize, first: u8) -> Escaped
    requires first { digit_in 16 (slice_get (text_bytes text) (at + 1)) ≡ Some first }
    requires room { at + 1 < 2 ^ 63 }
    ensures is { character_value at result
        ≡ paired_escape (slice_index (text_bytes text.entry) (at + 1))
        (drop (at + 2) (text_bytes text.entry)) }
    ensures ends { EndsBehind text.entry at result }
{
    let Some(_) = text.byte(at + 2) else {
        return Escaped::Unfinished;
    };
    match digit_at(text, at + 2, 16) {
        Some(second) => Escaped::Means(char::from(first * 16 + second), at + 3),
        None => Escaped::Senseless,
    }
}

/// Hexadecimal digits in braces, after an `x` at this place.
fn braced(text: Text<'_>, at: usize) -> Escaped
    requires { at + 1 < 2 ^ 63 }
    ensures is { character_value at result ≡ braced_escape (drop (at + 2) (text_bytes text.entry)) }
    ensures ends { EndsBehind text.entry at result }
{
    let Digits { number, to } = read_digits(text, at + 2, 16, false);
    match text.byte(to) {
        Some(b'}') if to > at + 2 => scalar(number, to + 1),
        Some(_) => Escaped::Senseless,
        None => Escaped::Unfinished,
    }
}

/// A control character, at its `^`.
fn caret(text: Text<'_>, at: usize) -> Escaped
    requires { at < 2 ^ 63 }
    ensures is { character_value at result ≡ caret_escape (drop (at + 1) (text_bytes text.entry)) }
    ensures ends { EndsBehind text.entry at result }
{
    let Some(byte) = text.byte(at + 1) else {
        return Escaped::Unfinished;
    };
    if has_control_character(byte) {
        Escaped::Means(char::from(byte % 32), at + 2)
    } else {
        Escaped::Senseless
    }
}

/// A control character goes by this letter.
fn has_control_character(byte: u8) -> bool
    ensures { result ≡ (is_in 64 95 byte || is_in 97 122 byte) }
{
    matches!(byte, b'@'..=b'_' | b'a'..=b'z')
}

/// The character that this byte stands for, or else the one that begins with it.
fn by_name(text: Text<'_>, at: usize, byte: u8) -> Escaped
    requires byte { byte_in (slice_get (text_bytes text) at) ≡ Some byte }
    requires room { at < 2 ^ 63 }
    requires cut { byte < 128 → IsCharBoundary text.valid.now (at + 1) }
    requires begins { IsCharBoundary text.valid.now at }
    ensures is { character_value at result
        ≡ by_name_escape (letter_character byte) byte (drop (at + 1) (text_bytes text.entry)) }
    ensures ends { EndsBehind text.entry at result }
{
    match letter_character(byte) {
        Some(character) => Escaped::Means(character, at + 1),
        None => {
            let (character, to) = text.character_at(at);
            Escaped::Means(character, to)
        }
    }
}

/// The character that a byte after a backslash stands for, if not for its own.
fn letter_character(byte: u8) -> Option<char>
    ensures { result ≡ letter_character byte }
{
    match byte {
        b'b' => Some('\u{8}'),
        b'd' => Some('\u{7f}'),
        b'e' => Some('\u{1b}'),
        b'f' => Some('\u{c}'),
        b'n' => Some('\n'),
        b'r' => Some('\r'),
        b's' => Some(' '),
        b't' => Some('\t'),
        b'v' => Some('\u{b}'),
        _ => None,
    }
}

/// The character with this number, if there is one, up to this place.
fn scalar(code: u64, to: usize) -> Escaped
    ensures is { (at : ℕ) → character_value at result ≡ scalar_character code (to - at) }
    ensures ends { EndsAt to result }
{
    if code > 0x10_ffff {
        return Escaped::Senseless;
    }
    match char::from_u32(code as u32) {
        Some(character) => Escaped::Means(character, to),
        None => Escaped::Senseless,
    }
}
