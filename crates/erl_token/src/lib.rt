//! The tokens of Erlang texts.
//!
//! `next_item` answers the first token from a place of a text on, with its places, or none up to the end. So the tokens that
//! it answers one after another are `items_of` the bytes (specs/Lexing): blanks and comments are skipped, and texts in a row
//! are one text.
//! A token is a bracket, a comma, a dot, a name, a number of 64 bits or a text (specs/Quotes says how names and texts are
//! spelled between quotes, and `erl_number` has the numbers and the escapes). Three are of no term: a byte that begins none,
//! one that begins as another does and has a fault (`TermFault`), and one that the end of the text cuts off.
//! What stands between quotes is not copied: it is kept in pieces (`Content`), and written out by
//! `Content::to_text` as a text and by `push_characters` as bytes.
//! The functions of `laws` say of the definitions that the items of a text tile it, and that a row of tokens that is cut
//! out of its text, with a dot after it, has the same tokens.
//!
//! Only tested: texts against Erlang/OTP (docs/MEASUREMENTS.md). Trusted: the toolchain alone.
#![tactic(auto)]

mod bytes;
mod class;
mod content;
pub mod laws;
mod lexer;
mod quote;
mod token;

pub use bytes::push_characters;
pub use content::{Content, Piece};
pub use lexer::next_item;
pub use token::{Bracket, Item, Like, Token};
