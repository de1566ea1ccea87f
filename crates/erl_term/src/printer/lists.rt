//! Lists of characters as strings, and bytes as binaries.
ghost use Rattle.std.specs.Prelude.{◌≡◌, ◌<◌, ◌++◌, All, IfSome, OnOk, string_bytes};
ghost use Rattle.std.specs.Fmt.{decimal};
ghost use Rattle.erl_term.specs.Value.{members_of, value_of};
ghost use Rattle.erl_term.specs.Printing.{character_of, characters_of, is_string, string_character, string_text, binary_text};

use crate::Term;
use std::alloc::AllocError;

// The character that a member of a list can be printed as.
fn character_of(term: &Term) -> Option<char>
    ensures { result ≡ character_of (value_of term.now) }
{
    match term {
        Term::Int(9) => Some('\t'),
        Term::Int(10) => Some('\n'),
        Term::Int(13) => Some('\r'),
        Term::Int(n @ 32..=126) => Some(char::from(*n as u8)),
        _ => None,
    }
}

// Whether a list is printed as a string.
pub(super) fn is_string(items: &[Term]) -> bool
    ensures { result ≡ is_string (characters_of (members_of items.now)) }
{
    for item in items {
        if character_of(item).is_none() {
            return false;
        }
    }
    !items.is_empty()
}

// Appends a list of characters as a string.
pub(super) fn print_string(out: &mut String, items: &[Term]) -> Result<(), AllocError>
    ensures { OnOk result (IfSome (characters_of (members_of items.now)) (λ characters.
        string_bytes out.new ≡ string_bytes out.old ++ string_text characters)) }
{
    out.push('"')?;
    for item in items {
        if let Some(character) = character_of(item) {
            print_character(out, character)?;
        }
    }
    out.push('"')
}

// Appends a character of a string, within the quotes.
fn print_character(out: &mut String, character: char) -> Result<(), AllocError>
    ensures { OnOk result
        (string_bytes out.new ≡ string_bytes out.old ++ string_character character) }
{
    match character {
        '"' => out.push_str("\\\""),
        '\\' => out.push_str("\\\\"),
        '\t' => out.push_str("\\t"),
        '\n' => out.push_str("\\n"),
        '\r' => out.push_str("\\r"),
        _ => out.push(character),
    }
}

// Appends bytes in decimal, as a binary.
pub(super) fn print_bytes(out: &mut String, bytes: &[u8]) -> Result<(), AllocError>
    ensures printed { OnOk result
        (string_bytes out.new ≡ string_bytes out.old ++ binary_text bytes.now) }
    ensures fit { All (λ byte. byte < 256) bytes.now }
{
    out.push_str("<<")?;
    for (i, byte) in bytes.iter().enumerate() {
        if i > 0 {
            out.push(',')?;
        }
        print_byte(out, *byte)?;
    }
    out.push_str(">>")
}

// Appends a byte in decimal.
fn print_byte(out: &mut String, byte: u8) -> Result<(), AllocError>
    ensures printed { OnOk result (string_bytes out.new ≡ string_bytes out.old ++ decimal byte) }
    ensures fits { byte < 256 }
{
    write!(out, "{byte}")
}
