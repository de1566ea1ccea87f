//! Bytes in a row.
ghost use Rattle.std.specs.Prelude.{◌≡◌, ◌+◌, ◌≤◌, ◌^◌, length, drop};
ghost use Rattle.std.specs.Str.{IsUtf8};
ghost use Rattle.erl_number.specs.Escapes.{is_in, leading};
ghost use Rattle.erl_number.specs.Views.{text_bytes};
ghost use Rattle.erl_number.specs.Scanned.{goes_on_with};

use crate::text::{At, Text};

/// Bytes in a row that a token or a comment goes on with.
#[derive(Clone, Copy)]
pub enum Run {
    InName,
    /// Between such quotes.
    InQuotes(u8),
    InComment,
    /// Digits of any base, and `_`.
    InDigits,
    InBlanks,
    /// Up to what isn't UTF-8.
    InText,
}

impl Run {
    /// The run goes on with the byte.
    fn goes_on_with(self, byte: u8) -> bool
        ensures { result ≡ goes_on_with self byte }
    {
        match self {
            Run::InName => is_small_letter(byte)
                || matches!(byte, b'A'..=b'Z' | b'0'..=b'9' | b'_' | b'@'),
            Run::InQuotes(quote) => !(byte == quote || byte == b'\\'),
            Run::InComment => byte != b'\n',
            Run::InDigits => matches!(byte, b'0'..=b'9' | b'A'..=b'Z' | b'a'..=b'z' | b'_'),
            Run::InBlanks => byte <= b' ',
            Run::InText => true,
        }
    }
}

/// A small letter of ASCII, as most bytes of names are.
fn is_small_letter(byte: u8) -> bool
    ensures { result ≡ is_in 97 122 byte }
{
    b'a' <= byte && byte <= b'z'
}

/// Where the run from this place on ends.
pub fn run_end(text: Text<'_>, run: Run, from: usize) -> usize
    requires { from ≤ 2 ^ 63 }
    ensures end { result ≡ from + length
        (leading (goes_on_with run) (drop from (text_bytes text.entry))) }
    ensures within { result ≤ 2 ^ 63 }
    ensures utf8 { IsUtf8 text.entry.valid.now }
{
    let mut at = from;
    while let At::Byte(byte) = text.at(at) {
        if !run.goes_on_with(byte) {
            break;
        }
        at += 1;
    }
    at
}
