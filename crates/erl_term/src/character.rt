//! The characters of a text, as members of a list.
ghost use Rattle.std.specs.Prelude.{◌≡◌, pos, ◌++◌, [], ◌∷◌, map, OnOk, IfOk};
ghost use Rattle.std.specs.List.{flat_map};
ghost use Rattle.std.specs.Str.{IsUtf8, chars};
ghost use Rattle.erl_term.specs.Value.{value_of, values_of};
ghost use Rattle.erl_term.specs.Value.Value.{int};
ghost use Rattle.erl_token.specs.Contents.{piece_bytes, content_bytes, IsAlone};
ghost use Rattle.erl_term.specs.Views.{character_values};
ghost use Rattle.erl_term.specs.Grammar.{numbers};

use crate::term::Term;
use erl_token::{Content, Piece};
use std::alloc::{AllocError, Global};

/// A text's characters.
pub fn characters(alloc: Global, text: &Content<'_>) -> Result<Vec<Term>, AllocError>
    ensures { IfOk result
        (λ v. values_of (map value_of v.items) ≡ numbers (chars (content_bytes text.now))) }
{
    match text {
        Content::Part(part) => {
            // A text has at most as many characters as bytes.
            let mut members = Vec::with_capacity(alloc, part.len())?;
            add_part(&mut members, part)?;
            Ok(members)
        }
        Content::Row(pieces) => {
            let mut members = Vec::new(alloc);
            add_pieces(&mut members, pieces)?;
            Ok(members)
        }
    }
}

/// Adds the characters of pieces to members.
fn add_pieces(members: &mut Vec<Term>, pieces: &[Piece<'_>]) -> Result<(), AllocError>
    ensures { OnOk result
        (map value_of members.new.items ≡ map value_of members.old.items
        ++ character_values (flat_map piece_bytes pieces.now)) }
{
    for piece in pieces {
        add_piece(members, piece)?;
    }
    Ok(())
}

/// Adds the characters of a piece to members.
fn add_piece(members: &mut Vec<Term>, piece: &Piece<'_>) -> Result<(), AllocError>
    ensures added { OnOk result
        (map value_of members.new.items ≡ map value_of members.old.items
        ++ character_values (piece_bytes piece.now)) }
    ensures utf8 { IsUtf8 (piece_bytes piece.now) }
{
    match piece {
        Piece::Part(part) => add_part(members, part),
        Piece::Character(character) => add_character(members, *character),
    }
}

/// Adds the characters of a part to members.
fn add_part(members: &mut Vec<Term>, part: &str) -> Result<(), AllocError>
    ensures added { OnOk result
        (map value_of members.new.items ≡ map value_of members.old.items
        ++ character_values part.now) }
    ensures utf8 { IsUtf8 part.now }
{
    members.reserve(part.len())?;
    for character in part.chars() {
        add_character(members, character)?;
    }
    Ok(())
}

/// Adds a character to members.
fn add_character(members: &mut Vec<Term>, character: char) -> Result<(), AllocError>
    ensures added { OnOk result
        (map value_of members.new.items ≡ map value_of members.old.items
        ++ int (pos character) ∷ []) }
    ensures alone { IsAlone character }
{
    Ok(members.push(Term::Int(i64::from(u32::from(character))))?)
}
