//! Numbers without their sign.
ghost use Rattle.std.specs.Prelude.{◌≡◌, ℕ, ◌+◌, ◌-◌, ◌<◌, ◌≤◌, ◌^◌, true, drop, slice_get, IsTrue, MatchBool};
ghost use Rattle.std.specs.Char.{is_digit};
ghost use Rattle.std.specs.Str.{IsCharBoundary};
ghost use Rattle.erl_number.specs.Numbers.{begins, numeral, digits_numeral as digits_spelling, behind_base as base_spelling, in_base as spelling_in_base, character_numeral as character_spelling, ended as end_spelling, goes_on_as_float};
ghost use Rattle.erl_number.specs.Views.{text_bytes};
ghost use Rattle.erl_number.specs.Scanned.{capped_numeral, numeral_value, signed_number, EndsAfter, IsInRange};

use crate::digits::{Digits, begins_digit, read_digits};
use crate::escape::{Escaped, escape_at};
use crate::fault::TermFault;
use crate::run::{Run, run_end};
use crate::text::{At, Text};

/// The largest number of 64 bits signed.
const LARGEST: u64 = 9_223_372_036_854_775_807;

/// A number without its sign.
#[derive(Clone, Copy)]
pub enum Numeral {
    /// The number, or 2^63 + 1 where it is larger, and the place after it.
    Whole(u64, usize),
    /// The number has a fault.
    Faulty(TermFault),
    /// The text ends within it.
    CutOff,
}

/// The number at a place. `start` is the place of its sign, if it has one, and else that place.
pub fn numeral_at(text: Text<'_>, start: usize, at: usize) -> Numeral
    ensures is { numeral_value at result
        ≡ capped_numeral (numeral start at (drop at (text_bytes text.entry))) }
    ensures ends { EndsAfter at result }
{
    match text.at(at) {
        At::Byte(byte) => {
            if begins_digit(text, at, 10) {
                in_digits(text, start, at)
            } else if byte == b'$' {
                of_character(text, at)
            } else {
                Numeral::Faulty(TermFault::BadToken(at))
            }
        }
        At::NotUtf8 => Numeral::Faulty(TermFault::BadToken(at)),
        At::End => Numeral::CutOff,
    }
}

/// A number in digits, at the first of them.
fn in_digits(text: Text<'_>, start: usize, at: usize) -> Numeral
    requires room { at < 2 ^ 63 }
    requires digit { begins (λ x. is_digit x 10) (drop at (text_bytes text)) ≡ true }
    ensures is { numeral_value at result
        ≡ capped_numeral (digits_spelling start at (drop at (text_bytes text.entry))) }
    ensures ends { EndsAfter at result }
{
    let Digits { number, to } = read_digits(text, at, 10, true);
    if is_byte(text, to, b'#') {
        return behind_base(text, start, at, number, to + 1);
    }
    if is_float(text, to) {
        return Numeral::Faulty(TermFault::Unsupported(start));
    }
    Numeral::Whole(number, to)
}

/// What follows a base and its `#`, from the place `from` on. The number begins at `at`, and at `start` with its sign.
fn behind_base(text: Text<'_>, start: usize, at: usize, base: u64, from: usize) -> Numeral
    requires { at < from }
    ensures is { numeral_value at result
        ≡ capped_numeral (base_spelling start base (from - at) from
        (drop from (text_bytes text.entry))) }
    ensures ends { EndsAfter at result }
{
    match text.at(from) {
        At::Byte(_) => {
            if begins_digit(text, from, 36) {
                in_base(text, start, at, base, from)
            } else {
                Numeral::Faulty(TermFault::BadToken(from))
            }
        }
        At::NotUtf8 => Numeral::Faulty(TermFault::BadToken(from)),
        At::End => Numeral::CutOff,
    }
}

/// The digits after a base and its `#`, from the place `from` on. The number begins at `at`, and at `start` with its sign.
fn in_base(text: Text<'_>, start: usize, at: usize, base: u64, from: usize) -> Numeral
    requires onward { at < from }
    requires digit { begins (λ x. is_digit x 36) (drop from (text_bytes text)) ≡ true }
    ensures is { numeral_value at result
        ≡ capped_numeral (spelling_in_base start base (from - at)
        (drop from (text_bytes text.entry))) }
    ensures ends { EndsAfter at result }
{
    let end = run_end(text, Run::InDigits, from);
    if is_float(text, end) {
        return Numeral::Faulty(TermFault::Unsupported(start));
    }
    if base < 2 || base > 36 {
        return Numeral::Faulty(TermFault::BadNumber(start));
    }
    let Digits { number, to } = read_digits(text, from, base as u8, true);
    if to == end {
        Numeral::Whole(number, to)
    } else {
        Numeral::Faulty(TermFault::BadNumber(start))
    }
}

/// This byte stands at this place.
fn is_byte(text: Text<'_>, at: usize, byte: u8) -> bool
    ensures is { MatchBool result (slice_get (text_bytes text.entry) at ≡ Some byte)
        (slice_get (text_bytes text.entry) at ≡ Some byte → ⊥) }
    ensures within { IsTrue result → at < 2 ^ 63 }
{
    match text.at(at) {
        At::Byte(there) => there == byte,
        At::NotUtf8 | At::End => false,
    }
}

/// A full stop and a digit, as in a float.
fn is_float(text: Text<'_>, at: usize) -> bool
    ensures { result ≡ goes_on_as_float (drop at (text_bytes text.entry)) }
{
    match text.at(at) {
        At::Byte(byte) => byte == b'.' && begins_digit(text, at + 1, 10),
        At::NotUtf8 | At::End => false,
    }
}

/// The number of a character, at its `$`.
fn of_character(text: Text<'_>, at: usize) -> Numeral
    requires room { at < 2 ^ 63 }
    requires cut { IsCharBoundary text.valid.now (at + 1) }
    ensures is { numeral_value at result
        ≡ capped_numeral (character_spelling (at + 1) (drop (at + 1) (text_bytes text.entry))) }
    ensures ends { EndsAfter at result }
{
    match text.at(at + 1) {
        At::Byte(byte) => {
            if byte == b'\\' {
                of_escape(text, at)
            } else {
                let (character, to) = text.character_at(at + 1);
                Numeral::Whole(u64::from(character), to)
            }
        }
        At::NotUtf8 => Numeral::Faulty(TermFault::BadToken(at + 1)),
        At::End => Numeral::CutOff,
    }
}

/// The number of an escape, of which the `$` stands at this place.
fn of_escape(text: Text<'_>, at: usize) -> Numeral
    requires stands { slice_get (text_bytes text) (at + 1) ≡ Some 92 }
    requires room { at + 1 < 2 ^ 63 }
    requires cut { IsCharBoundary text.valid.now (at + 2) }
    ensures is { numeral_value at result
        ≡ capped_numeral (character_spelling (at + 1) (drop (at + 1) (text_bytes text.entry))) }
    ensures ends { EndsAfter at result }
{
    match escape_at(text, at + 2) {
        Escaped::Means(character, to) => Numeral::Whole(u64::from(character), to),
        Escaped::Senseless => Numeral::Faulty(TermFault::BadToken(at + 1)),
        Escaped::Unfinished => ended(text, at + 2),
    }
}

/// The text ends after this place, or is no longer UTF-8 there.
fn ended(text: Text<'_>, at: usize) -> Numeral
    requires { at ≤ 2 ^ 63 }
    ensures is { (from : ℕ) → numeral_value from result
        ≡ end_spelling at (drop at (text_bytes text.entry)) }
    ensures ends { (from : ℕ) → EndsAfter from result }
{
    let end = run_end(text, Run::InText, at);
    match text.at(end) {
        At::End => Numeral::CutOff,
        _ => Numeral::Faulty(TermFault::BadToken(end)),
    }
}

/// The number with its sign, if 64 bits signed hold it.
pub fn in_range(number: u64, is_negative: bool) -> Option<i64>
    ensures { IsInRange (signed_number is_negative number) result }
{
    if number > LARGEST {
        // There is one more below zero.
        if is_negative && number == LARGEST + 1 {
            Some(i64::MIN)
        } else {
            None
        }
    } else if is_negative {
        Some(-(number as i64))
    } else {
        Some(number as i64)
    }
}
