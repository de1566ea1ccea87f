//! What follows a quote.
ghost use Rattle.std.specs.Prelude.{◌≡◌, ◌+◌, ◌≤◌, length, drop, slice_get, Some, IfOk};
ghost use Rattle.std.specs.Str.{IsUtf8};
ghost use Rattle.erl_token.specs.Quotes.{quoted, unclosed as unclosed_fault};
ghost use Rattle.erl_number.specs.Views.{text_bytes};
ghost use Rattle.erl_token.specs.Contents.{IsQuote, IsQuoted};

use crate::content::Content;
use erl_number::{At, Escaped, Run, TermFault, Text, escape_at, run_end};
use std::alloc::{AllocError, Global};

/// What follows a quote.
#[derive(Drop)]
pub enum Quoted<'a> {
    /// What stands up to the next such quote, and the place after that.
    Closed(Content<'a>, usize),
    /// No such quote closes it, or something else is wrong before that.
    Faulty(TermFault),
}

/// What follows the quote at this place.
pub fn quoted_from<'a>(
    alloc: Global,
    text: Text<'a>,
    quote: u8,
    from: usize,
) -> Result<Quoted<'a>, AllocError>
    requires quote { IsQuote quote }
    requires begins { slice_get (text_bytes text) from ≡ Some quote }
    requires utf8 { IsUtf8 text.valid.now }
    ensures { IfOk result
        (IsQuoted (quoted quote from (from + 1) 0 (drop (from + 1) (text_bytes text.entry))) from) }
{
    let mut content = Content::Part("");
    let mut at = from + 1;
    loop {
        match text.at(at) {
            At::Byte(byte) => {
                if byte == quote {
                    return Ok(Quoted::Closed(content, at + 1));
                }
                if byte == b'\\' {
                    match escape_at(text, at + 1) {
                        Escaped::Means(character, end) => {
                            content = content.and_character(alloc, character)?;
                            at = end;
                        }
                        Escaped::Senseless => return Ok(Quoted::Faulty(TermFault::BadToken(at))),
                        Escaped::Unfinished => {
                            return Ok(Quoted::Faulty(unclosed(text, from, at + 1)));
                        }
                    }
                } else {
                    let end = run_end(text, Run::InQuotes(quote), at);
                    content = content.and(alloc, Content::Part(text.part(at, end)))?;
                    at = end;
                }
            }
            At::NotUtf8 => return Ok(Quoted::Faulty(TermFault::BadToken(at))),
            At::End => return Ok(Quoted::Faulty(TermFault::Unclosed(from))),
        }
    }
}

/// The fault of a quote that the text's end leaves open, seen from a place after it.
fn unclosed(text: Text<'_>, from: usize, at: usize) -> TermFault
    requires { at ≤ length text.valid.now }
    ensures { result ≡ unclosed_fault from at (drop at (text_bytes text.entry)) }
{
    match text.bad_place() {
        Some(place) => TermFault::BadToken(place),
        None => TermFault::Unclosed(from),
    }
}
