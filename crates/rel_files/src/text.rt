//! Names, versions and lists of numbers in the terms of a file. What reads other files of a release takes them from here.
ghost use Rattle.std.specs.Prelude.{◌≡◌, ◌<◌, IfOk, IfSome, map, string_bytes};
ghost use Rattle.std.specs.List.{list_all};
ghost use Rattle.std.specs.Option.{option_map};
ghost use Rattle.erl_term.specs.Lexing.{is_in};
ghost use Rattle.erl_term.specs.Value.{members_of, value_of};
ghost use Rattle.rel_files.specs.Name.{is_name_byte, is_name, is_text};
ghost use Rattle.rel_files.specs.Sketch.{is_number, are_numbers, count, character_in, characters_in, text_in, version_in, version_or_empty, name_in, names_of, names_in};

use crate::parts::list_in;
use erl_term::Term;
use std::alloc::{AllocError, Global};

// The lowest character of a version.
pub(crate) const VISIBLE: u8 = b'!';

fn is_name_byte(byte: u8) -> bool
    ensures { result ≡ is_name_byte byte }
{
    matches!(byte, b'a'..=b'z' | b'A'..=b'Z' | b'0'..=b'9' | b'_' | b'@' | b'.' | b'-')
}

fn are_name_bytes(bytes: &[u8]) -> bool
    ensures { result ≡ list_all is_name_byte bytes.now }
{
    bytes.iter().all(|byte| is_name_byte(*byte))
}

/// Whether it is a name of an application or a module: 1 to 255 letters, digits and `_ @ . -`.
pub fn is_name(name: &str) -> bool
    ensures { result ≡ is_name name.now }
{
    1 <= name.len() && name.len() <= 255 && are_name_bytes(name.as_bytes())
}

/// The name of an application or a module that an atom is.
pub fn name_in(term: &Term) -> Option<&str>
    ensures { option_map (λ name. name.now) result ≡ name_in (value_of term.now) }
{
    match term {
        Term::Atom(name) if is_name(name.as_str()) => Some(name.as_str()),
        _ => None,
    }
}

fn is_version_byte(byte: u8) -> bool
    ensures { result ≡ is_in 0x21 0x7E byte }
{
    matches!(byte, b'!'..=b'~')
}

fn are_version_bytes(bytes: &[u8]) -> bool
    ensures { result ≡ list_all (is_in 0x21 0x7E) bytes.now }
{
    bytes.iter().all(|byte| is_version_byte(*byte))
}

/// Whether it is the text of a version: 1 to 62 characters from `!` to `~`.
pub fn is_version(text: &str) -> bool
    ensures { result ≡ is_text 0x21 text.now }
{
    1 <= text.len() && text.len() <= 62 && are_version_bytes(text.as_bytes())
}

fn is_number(term: &Term) -> bool
    ensures { result ≡ is_number (value_of term.now) }
{
    matches!(term, Term::Int(_))
}

// Whether all of them are numbers, as the characters of a string are.
pub(crate) fn are_numbers(items: &[Term]) -> bool
    ensures { result ≡ are_numbers (members_of items.now) }
{
    for item in items {
        if !is_number(item) {
            return false;
        }
    }
    true
}

// The text of these numbers, if they are 1 to 62 characters from the lowest to `~`.
pub(crate) fn text_in(
    alloc: Global,
    lowest: u8,
    items: &[Term],
) -> Result<Option<String>, AllocError>
    ensures { IfOk result (λ text.
        option_map string_bytes text ≡ text_in lowest (members_of items.now)) }
{
    if is_text_length(items) {
        characters_in(alloc, lowest, items)
    } else {
        Ok(None)
    }
}

fn is_text_length(items: &[Term]) -> bool
    ensures { result ≡ is_in 1 62 (count (members_of items.now)) }
{
    1 <= items.len() && items.len() <= 62
}

// The text of these numbers, if each is such a character.
fn characters_in(alloc: Global, lowest: u8, items: &[Term]) -> Result<Option<String>, AllocError>
    ensures { IfOk result (λ text.
        option_map string_bytes text ≡ characters_in lowest (members_of items.now)) }
{
    let mut text = String::with_capacity(alloc, items.len())?;
    for item in items {
        let Some(character) = character_in(lowest, item) else {
            return Ok(None);
        };
        text.push(character)?;
    }
    Ok(Some(text))
}

fn character_in(lowest: u8, term: &Term) -> Option<char>
    ensures found { result ≡ character_in lowest (value_of term.now) }
    ensures ascii { IfSome result (λ c. c < 128) }
{
    match term {
        Term::Int(n @ 0..=126) if i64::from(lowest) <= *n => Some(char::from(*n as u8)),
        _ => None,
    }
}

/// The version that a list of numbers is.
pub fn version_in(alloc: Global, term: &Term) -> Result<Option<String>, AllocError>
    ensures { IfOk result (λ vsn. option_map string_bytes vsn ≡ version_in (value_of term.now)) }
{
    match list_in(term) {
        Some(items) => text_in(alloc, VISIBLE, items),
        None => Ok(None),
    }
}

/// The text of a version; the empty text, which is none, where numbers stand that are no version; nothing for another
/// term. So a reader can report a bad version after all faults of the shape.
pub fn version_or_empty(alloc: Global, term: &Term) -> Result<Option<String>, AllocError>
    ensures { IfOk result (λ vsn.
        option_map string_bytes vsn ≡ version_or_empty (value_of term.now)) }
{
    let Some(items) = list_in(term) else {
        return Ok(None);
    };
    if !are_numbers(items) {
        return Ok(None);
    }
    match text_in(alloc, VISIBLE, items)? {
        Some(text) => Ok(Some(text)),
        None => Ok(Some(String::new(alloc))),
    }
}

// The names of applications or modules that atoms are, if each is one.
pub(crate) fn names_of(alloc: Global, items: &[Term]) -> Result<Option<Vec<String>>, AllocError>
    ensures { IfOk result (λ names.
        option_map (λ v. map string_bytes v.items) names ≡ names_of (members_of items.now)) }
{
    let mut names = Vec::with_capacity(alloc, items.len())?;
    for item in items {
        let Some(name) = name_in(item) else {
            return Ok(None);
        };
        names.push(String::from_str(alloc, name)?)?;
    }
    Ok(Some(names))
}

/// The names that a list has, if each of its members is one.
pub fn names_in(alloc: Global, term: &Term) -> Result<Option<Vec<String>>, AllocError>
    ensures { IfOk result (λ names.
        option_map (λ v. map string_bytes v.items) names ≡ names_in (value_of term.now)) }
{
    match list_in(term) {
        Some(items) => names_of(alloc, items),
        None => Ok(None),
    }
}
