//! Bytes into tokens.
ghost use Rattle.std.specs.Prelude.{◌≡◌, ◌≢◌, ◌⊎◌, ℕ, pos, ◌+◌, ◌-◌, ◌<◌, ◌≤◌, ◌^◌, length, drop, slice_index, slice_get, Some, IfSome, IfOk};
ghost use Rattle.std.specs.Str.{IsUtf8};
ghost use Rattle.erl_number.specs.Texts.{is_bare_name_byte};
ghost use Rattle.erl_token.specs.Lexing.{class_of, spelling, alone as alone_spelling, doubled as doubled_spelling, bare, name_spelling, name_in_quotes, text_in_quotes, numbered as numbered_spelling, signed as signed_spelling, put_item, ends_a_term};
ghost use Rattle.erl_token.specs.Lexing.Token.{text as text_token};
ghost use Rattle.erl_number.specs.Numbers.{Numeral as NumeralSpelling, numeral as numeral_spelling};
ghost use Rattle.erl_token.specs.Quotes.{quoted};
ghost use Rattle.erl_number.specs.Scanned.{capped_numeral, numeral_value, signed_number, EndsAfter};
ghost use Rattle.erl_number.specs.Escapes.{leading};
ghost use Rattle.erl_number.specs.Views.{text_bytes};
ghost use Rattle.erl_token.specs.Views.{token_value, like_value, item_value, lexed, items_from, IsFirst, Yields};
ghost use Rattle.erl_token.specs.Scanned.{IsSpelled};
ghost use Rattle.erl_token.specs.Contents.{content_bytes};
ghost use Rattle.erl_token.specs.declared.class.Class.TheVariants.{Blank, Percent, Dot as DotClass, Letter};
ghost use Rattle.erl_token.specs.declared.token.Like.TheVariants.{OpenBinary, CloseBinary};

use crate::class::Class;
use crate::content::Content;
use crate::quote::{Quoted, quoted_from};
use crate::token::{Bracket, Item, Like, Token};
use erl_number::{At, Numeral, Run, TermFault, Text, in_range, numeral_at, run_end};
use std::alloc::{AllocError, Global};

/// The longest name, in characters.
const LONGEST_NAME: usize = 255;

/// The first token from this place on, or none up to the end. Texts in a row are one.
pub fn next_item<'a>(
    alloc: Global,
    text: Text<'a>,
    from: usize,
) -> Result<Option<Item<'a>>, AllocError>
    ensures { IfOk result (Yields (text_bytes text.entry) from) }
{
    let at = gap_end(text, from);
    let byte = match text.at(at) {
        At::Byte(byte) => byte,
        At::NotUtf8 => return Ok(Some(alone(Token::NotUtf8, at))),
        At::End => return Ok(None),
    };
    let Item { token, from, to } = item_at(alloc, text, at, byte, Class::of(byte))?;
    match token {
        Token::Text(content) => Ok(Some(text_row(alloc, text, content, from, to)?)),
        token => Ok(Some(Item { token, from, to })),
    }
}

/// The first place from this one on where no blank and no comment stands.
#[inline(always)]
fn gap_end(text: Text<'_>, from: usize) -> usize
    ensures same { lexed (text_bytes text.entry) from ≡ lexed (text_bytes text.entry) result }
    ensures onward { from ≤ result }
    ensures stops { IfSome (slice_get (text_bytes text.entry) result)
        (λ byte. (class_of byte ≢ Blank) × (class_of byte ≢ Percent)) }
{
    let mut at = from;
    while let At::Byte(byte) = text.at(at) {
        match Class::of(byte) {
            Class::Blank => at += 1,
            Class::Percent => at = run_end(text, Run::InComment, at + 1),
            _ => return at,
        }
    }
    at
}

/// The texts in a row, of which the first holds this and stands between these places.
fn text_row<'a>(
    alloc: Global,
    text: Text<'a>,
    mut content: Content<'a>,
    from: usize,
    mut to: usize,
) -> Result<Item<'a>, AllocError>
    requires onward { from < to }
    requires utf8 { IsUtf8 text.valid.now }
    ensures { IfOk result (λ i. IsFirst (text_bytes text.entry)
        (put_item
        (record { token = text_token (content_bytes content.entry); from = from; to = to })
        (items_from (text_bytes text.entry) to))
        from (item_value i)) }
{
    let mut next = gap_end(text, to);
    while let Some(b'"') = text.byte(next) {
        match quoted_from(alloc, text, b'"', next)? {
            Quoted::Closed(more, end) => {
                content = content.and(alloc, more)?;
                to = end;
                next = gap_end(text, to);
            }
            Quoted::Faulty(fault) => {
                return Ok(Item {
                    token: Token::Broken(Like::Text, fault),
                    from,
                    to: next + 1,
                });
            }
        }
    }
    Ok(Item {
        token: Token::Text(content),
        from,
        to,
    })
}

/// The token at this place, which begins with this byte, of this class.
fn item_at<'a>(
    alloc: Global,
    text: Text<'a>,
    at: usize,
    byte: u8,
    class: Class,
) -> Result<Item<'a>, AllocError>
    requires within { at < length (text_bytes text) }
    requires room { at < 2 ^ 63 }
    requires byte { byte ≡ slice_index (text_bytes text) at }
    requires class { class ≡ class_of byte }
    requires utf8 { IsUtf8 text.valid.now }
    ensures { IfOk result
        (IsSpelled (spelling at class byte (drop (at + 1) (text_bytes text.entry))) at) }
{
    match class {
        Class::Comma => Ok(alone(Token::Comma, at)),
        Class::OpenTuple => Ok(alone(Token::Open(Bracket::Tuple), at)),
        Class::CloseTuple => Ok(alone(Token::Close(Bracket::Tuple), at)),
        Class::OpenList => Ok(alone(Token::Open(Bracket::List), at)),
        Class::CloseList => Ok(alone(Token::Close(Bracket::List), at)),
        Class::Less => Ok(doubled(text, at, byte, Like::OpenBinary)),
        Class::Greater => Ok(doubled(text, at, byte, Like::CloseBinary)),
        Class::Dot => Ok(full_stop(text, at, byte)),
        Class::Letter => Ok(bare_name(text, at)),
        Class::Digit | Class::Dollar => Ok(number(text, at)),
        Class::Sign => Ok(signed(text, at, byte)),
        Class::Quote => quoted_text(alloc, text, at),
        Class::Apostrophe => quoted_name(alloc, text, at),
        Class::Blank | Class::Percent | Class::Other => Ok(alone(Token::Stray(byte), at)),
    }
}

/// A token of one byte.
fn alone(token: Token<'_>, at: usize) -> Item<'_>
    requires { at < 2 ^ 63 }
    ensures { IsSpelled (alone_spelling (token_value token.entry)) at result }
{
    Item {
        token,
        from: at,
        to: at + 1,
    }
}

/// Two such bytes in a row are the bracket that begins so, which is cut off where the text ends between them.
fn doubled<'a>(text: Text<'_>, at: usize, byte: u8, like: Like) -> Item<'a>
    requires room { at < 2 ^ 63 }
    requires like { (like ≡ OpenBinary) ⊎ (like ≡ CloseBinary) }
    ensures { IsSpelled (doubled_spelling (like_value like) byte
        (drop (at + 1) (text_bytes text.entry))) at result }
{
    match text.at(at + 1) {
        At::End => alone(Token::Cut(like), at),
        At::NotUtf8 => alone(Token::Stray(byte), at),
        At::Byte(next) => {
            if next == byte {
                Item {
                    token: binary_bracket(like),
                    from: at,
                    to: at + 2,
                }
            } else {
                alone(Token::Stray(byte), at)
            }
        }
    }
}

/// The bracket of a binary that begins so.
fn binary_bracket<'a>(like: Like) -> Token<'a>
    requires { (like ≡ OpenBinary) ⊎ (like ≡ CloseBinary) }
    ensures { token_value result ≡ like_value like }
{
    match like {
        Like::OpenBinary => Token::Open(Bracket::Binary),
        _ => Token::Close(Bracket::Binary),
    }
}

/// A full stop is a dot where a term may end.
fn full_stop(text: Text<'_>, at: usize, byte: u8) -> Item<'_>
    requires { at < 2 ^ 63 }
    ensures { IsSpelled (spelling at DotClass byte
        (drop (at + 1) (text_bytes text.entry))) at result }
{
    if ends_term(text, at + 1) {
        alone(Token::Dot, at)
    } else {
        alone(Token::Stray(byte), at)
    }
}

/// A term may end in front of this place.
fn ends_term(text: Text<'_>, at: usize) -> bool
    ensures { result ≡ ends_a_term (drop at (text_bytes text.entry)) }
{
    match text.at(at) {
        At::Byte(byte) => byte <= b' ' || byte == b'%',
        At::NotUtf8 => false,
        At::End => true,
    }
}

/// A name without quotes.
fn bare_name(text: Text<'_>, from: usize) -> Item<'_>
    requires within { from < length (text_bytes text) }
    requires class { class_of (slice_index (text_bytes text) from) ≡ Letter }
    ensures { IsSpelled (bare from
        (leading is_bare_name_byte (drop from (text_bytes text.entry)))) from result }
{
    let to = run_end(text, Run::InName, from);
    let name = text.part(from, to);
    if name == "fun" {
        alone(
            Token::Broken(Like::Name, TermFault::Unsupported(from)),
            from,
        )
    } else {
        name_item(Content::Part(name), from, to)
    }
}

/// A name between these places, if it isn't too long.
fn name_item(name: Content<'_>, from: usize, to: usize) -> Item<'_>
    requires onward { from < to }
    requires room { from < 2 ^ 63 }
    ensures { IsSpelled (name_spelling from (content_bytes name.entry) (to - from)) from result }
{
    if name.is_longer_than(LONGEST_NAME) {
        alone(Token::Broken(Like::Name, TermFault::BadToken(from)), from)
    } else {
        Item {
            token: Token::Name(name),
            from,
            to,
        }
    }
}

/// A name between quotes.
fn quoted_name<'a>(alloc: Global, text: Text<'a>, from: usize) -> Result<Item<'a>, AllocError>
    requires begins { slice_get (text_bytes text) from ≡ Some 39 }
    requires utf8 { IsUtf8 text.valid.now }
    ensures { IfOk result
        (IsSpelled (name_in_quotes from
        (quoted 39 from (from + 1) 0 (drop (from + 1) (text_bytes text.entry)))) from) }
{
    match quoted_from(alloc, text, b'\'', from)? {
        Quoted::Closed(content, to) => Ok(name_item(content, from, to)),
        Quoted::Faulty(fault) => Ok(alone(Token::Broken(Like::Name, fault), from)),
    }
}

/// A text between quotes.
fn quoted_text<'a>(alloc: Global, text: Text<'a>, from: usize) -> Result<Item<'a>, AllocError>
    requires begins { slice_get (text_bytes text) from ≡ Some 34 }
    requires utf8 { IsUtf8 text.valid.now }
    ensures { IfOk result
        (IsSpelled (text_in_quotes
        (quoted 34 from (from + 1) 0 (drop (from + 1) (text_bytes text.entry)))) from) }
{
    match quoted_from(alloc, text, b'"', from)? {
        Quoted::Closed(content, to) => Ok(Item {
            token: Token::Text(content),
            from,
            to,
        }),
        Quoted::Faulty(fault) => Ok(alone(Token::Broken(Like::Text, fault), from)),
    }
}

/// A number without a sign.
fn number(text: Text<'_>, at: usize) -> Item<'_>
    requires { at < 2 ^ 63 }
    ensures { IsSpelled (numbered_spelling at pos 0
        (numeral_spelling at at (drop at (text_bytes text.entry)))) at result }
{
    numbered(numeral_at(text, at, at), at, false)
}

/// A number after its sign, which is this byte, and blanks.
fn signed(text: Text<'_>, at: usize, byte: u8) -> Item<'_>
    requires { at < 2 ^ 63 }
    ensures { IsSpelled (signed_spelling at byte
        (drop (at + 1) (text_bytes text.entry))) at result }
{
    let from = run_end(text, Run::InBlanks, at + 1);
    numbered(numeral_at(text, at, from), at, byte == b'-')
}

/// The token of a number, which begins at this place with its sign.
fn numbered<'a>(numeral: Numeral, at: usize, is_negative: bool) -> Item<'a>
    requires { at < 2 ^ 63 }
    ensures { (n : NumeralSpelling) (from : ℕ) → at ≤ from → EndsAfter from numeral
        → numeral_value from numeral ≡ capped_numeral n
        → IsSpelled (numbered_spelling at (signed_number is_negative) (from - at) n) at result }
{
    match numeral {
        Numeral::Whole(magnitude, to) => match in_range(magnitude, is_negative) {
            Some(number) => Item {
                token: Token::Number(number),
                from: at,
                to,
            },
            None => alone(Token::Broken(Like::Number, TermFault::BadNumber(at)), at),
        },
        Numeral::Faulty(fault) => alone(Token::Broken(Like::Number, fault), at),
        Numeral::CutOff => alone(Token::Cut(Like::Number), at),
    }
}
