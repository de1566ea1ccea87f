//! The tokens of a text.

use crate::content::Content;
use erl_number::TermFault;

/// A pair of brackets.
#[derive(Clone, Copy, PartialEq, Eq)]
pub enum Bracket {
    Tuple,
    List,
    Binary,
}

/// What a token that is of no term begins as.
#[derive(Clone, Copy)]
pub enum Like {
    Name,
    Number,
    Text,
    OpenBinary,
    CloseBinary,
}

/// A token.
#[derive(Drop)]
pub enum Token<'a> {
    Open(Bracket),
    Close(Bracket),
    Comma,
    Dot,
    Name(Content<'a>),
    Number(i64),
    /// What stands between two quotes.
    Text(Content<'a>),
    /// A byte that begins no token.
    Stray(u8),
    /// Bytes that are not UTF-8.
    NotUtf8,
    /// What begins as another token does, and has a fault of its own.
    Broken(Like, TermFault),
    /// What begins as another token does, and is cut off by the end of the text.
    Cut(Like),
}

/// A token, from its first byte to after its last.
#[derive(Drop)]
pub struct Item<'a> {
    pub token: Token<'a>,
    pub from: usize,
    pub to: usize,
}
