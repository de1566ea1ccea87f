//! Digits in a row.
ghost use Rattle.std.specs.Prelude.{◌≡◌, ◌+◌, ◌*◌, ◌<◌, ◌≤◌, ◌^◌, ◌&&◌, ◌==◌, drop, slice_get, length, IfSome};
ghost use Rattle.std.specs.Char.{is_digit, digit_value as value_of_digit};
ghost use Rattle.std.specs.Str.{IsCharBoundary};
ghost use Rattle.erl_number.specs.Numbers.{begins, spelled_by};
ghost use Rattle.erl_number.specs.Views.{text_bytes};
ghost use Rattle.erl_number.specs.Scanned.{capped, digit_in, digits_here};

use crate::text::Text;

/// Larger than any number of 64 bits signed, whatever its sign. Sums of digits stop here.
const TOO_LARGE: u64 = 9_223_372_036_854_775_809;

/// Digits in a row.
#[derive(Clone, Copy)]
pub struct Digits {
    /// The number that they spell, or 2^63 + 1 where it is larger.
    pub number: u64,
    /// The place after them.
    pub to: usize,
}

/// The digits of a base from this place on. Where they are joined, each may stand after a `_`.
pub fn read_digits(text: Text<'_>, from: usize, base: u8, joined: bool) -> Digits
    requires from { from ≤ 2 ^ 63 }
    requires low { 2 ≤ base }
    requires high { base ≤ 36 }
    ensures number { result.number
        ≡ capped (spelled_by base (digits_here joined base (drop from (text_bytes text.entry)))) }
    ensures to { result.to
        ≡ from + length (digits_here joined base (drop from (text_bytes text.entry))) }
    ensures within { result.to ≤ 2 ^ 63 }
{
    let mut number = 0;
    let mut at = from;
    while let Some(byte) = text.byte(at) {
        let digit = digit_value(byte);
        if digit < base {
            number = more(number, base, digit);
        } else if !is_joint(text, at, byte, base, joined) {
            break;
        }
        at += 1;
    }
    Digits { number, to: at }
}

/// The byte at this place is a `_` in front of a digit of this base, and they are joined.
fn is_joint(text: Text<'_>, at: usize, byte: u8, base: u8, joined: bool) -> bool
    requires room { at < 2 ^ 63 }
    requires base { base ≤ 36 }
    ensures { result ≡ (joined &&
        (byte == 95 && begins (λ x. is_digit x base) (drop (at + 1) (text_bytes text.entry)))) }
{
    joined && byte == b'_' && begins_digit(text, at + 1, base)
}

/// A digit of this base, at this place.
pub fn digit_at(text: Text<'_>, at: usize, base: u8) -> Option<u8>
    requires { base ≤ 36 }
    ensures is { result ≡ digit_in base (slice_get (text_bytes text.entry) at) }
    ensures small { IfSome result (λ digit. digit < base) }
    ensures behind { IfSome result (λ _. at < 2 ^ 63) }
    ensures cut { IfSome result (λ _. IsCharBoundary text.entry.valid.now (at + 1)) }
{
    let value = digit_value(text.byte(at)?);
    if value < base { Some(value) } else { None }
}

/// A digit of this base stands at this place.
pub fn begins_digit(text: Text<'_>, at: usize, base: u8) -> bool
    requires { base ≤ 36 }
    ensures { result ≡ begins (λ x. is_digit x base) (drop at (text_bytes text.entry)) }
{
    digit_at(text, at, base).is_some()
}

/// The value of a digit or a letter, and 36 for any other byte.
fn digit_value(byte: u8) -> u8
    ensures { result ≡ value_of_digit byte }
{
    match byte {
        b'0'..=b'9' => byte - b'0',
        b'A'..=b'Z' => byte - b'A' + 10,
        b'a'..=b'z' => byte - b'a' + 10,
        _ => 36,
    }
}

/// The number with one more digit.
fn more(number: u64, base: u8, digit: u8) -> u64
    ensures { result ≡ capped (number * base + digit) }
{
    number
        .saturating_mul(u64::from(base))
        .saturating_add(u64::from(digit))
        .min(TOO_LARGE)
}
