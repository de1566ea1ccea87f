//! The characters of a text, as bytes.
ghost use Rattle.std.specs.Prelude.{[], ◌∷◌, IfOk};
ghost use Rattle.std.specs.List.{flat_map};
ghost use Rattle.std.specs.Str.{IsUtf8, chars};
ghost use Rattle.erl_token.specs.Bytes.{IsAdded};
ghost use Rattle.erl_token.specs.Contents.{piece_bytes, content_bytes, IsAlone};

use crate::content::{Content, Piece};
use std::alloc::AllocError;

/// Adds a text's characters to bytes, and reports whether all are bytes. Where one is none, what the bytes hold is of no use.
pub fn push_characters(bytes: &mut Vec<u8>, text: &Content<'_>) -> Result<bool, AllocError>
    ensures { IfOk result
        (λ all. IsAdded all (chars (content_bytes text.now)) bytes.old.items bytes.new.items) }
{
    match text {
        Content::Part(part) => push_part(bytes, part),
        Content::Row(pieces) => push_pieces(bytes, pieces),
    }
}

/// Adds the characters of pieces to bytes, up to the first that is no byte: whether all are.
fn push_pieces(bytes: &mut Vec<u8>, pieces: &[Piece<'_>]) -> Result<bool, AllocError>
    ensures { IfOk result
        (λ all. IsAdded all (chars (flat_map piece_bytes pieces.now))
        bytes.old.items bytes.new.items) }
{
    for piece in pieces {
        if !push_piece(bytes, piece)? {
            return Ok(false);
        }
    }
    Ok(true)
}

/// Adds the characters of a piece to bytes, up to the first that is no byte: whether all are.
fn push_piece(bytes: &mut Vec<u8>, piece: &Piece<'_>) -> Result<bool, AllocError>
    ensures added { IfOk result
        (λ all. IsAdded all (chars (piece_bytes piece.now)) bytes.old.items bytes.new.items) }
    ensures utf8 { IsUtf8 (piece_bytes piece.now) }
{
    match piece {
        Piece::Part(part) => push_part(bytes, part),
        Piece::Character(character) => push_character(bytes, *character),
    }
}

/// Adds the characters of a part to bytes, up to the first that is no byte: whether all are.
fn push_part(bytes: &mut Vec<u8>, part: &str) -> Result<bool, AllocError>
    ensures added { IfOk result
        (λ all. IsAdded all (chars part.now) bytes.old.items bytes.new.items) }
    ensures utf8 { IsUtf8 part.now }
{
    for character in part.chars() {
        if !push_character(bytes, character)? {
            return Ok(false);
        }
    }
    Ok(true)
}

/// Adds a character to bytes, if it is one.
fn push_character(bytes: &mut Vec<u8>, character: char) -> Result<bool, AllocError>
    ensures added { IfOk result
        (λ all. IsAdded all (character ∷ []) bytes.old.items bytes.new.items) }
    ensures alone { IsAlone character }
{
    let Ok(byte) = u8::try_from(u32::from(character)) else {
        return Ok(false);
    };
    bytes.push(byte)?;
    Ok(true)
}
