//! What stands between quotes.
ghost use Rattle.std.specs.Prelude.{◌≡◌, ◌++◌, length, nat_lt, IfOk, encode_utf8, string_bytes};
ghost use Rattle.std.specs.List.{flat_map};
ghost use Rattle.std.specs.Str.{IsUtf8, chars};
ghost use Rattle.erl_token.specs.Contents.{piece_bytes, content_bytes, IsAlone};

use std::alloc::{AllocError, Global};

/// A piece of what quotes hold.
#[derive(Clone, Copy)]
pub enum Piece<'a> {
    /// A part of the text that is read.
    Part(&'a str),
    /// What an escape stands for.
    Character(char),
}

/// What quotes hold. Nothing of it is written out.
#[derive(Drop)]
pub enum Content<'a> {
    /// A part of the text that is read.
    Part(&'a str),
    /// Pieces, one after another.
    Row(Vec<Piece<'a>>),
}

impl<'a> Content<'a> {
    /// More stands after it.
    pub(crate) fn and(self, alloc: Global, more: Content<'a>) -> Result<Content<'a>, AllocError>
        ensures { IfOk result
            (λ c. content_bytes c ≡ content_bytes self.entry ++ content_bytes more.entry) }
    {
        if matches!(self, Content::Part("")) {
            return Ok(more);
        }
        let mut row = self.into_row(alloc)?;
        match more {
            Content::Part(part) => row.push(Piece::Part(part))?,
            Content::Row(mut pieces) => row.append(&mut pieces)?,
        }
        Ok(Content::Row(row))
    }

    /// A character stands after it.
    pub(crate) fn and_character(
        self,
        alloc: Global,
        character: char,
    ) -> Result<Content<'a>, AllocError>
        ensures { IfOk result
            (λ c. content_bytes c ≡ content_bytes self.entry ++ encode_utf8 character) }
    {
        let mut row = self.into_row(alloc)?;
        row.push(Piece::Character(character))?;
        Ok(Content::Row(row))
    }

    /// Its pieces.
    fn into_row(self, alloc: Global) -> Result<Vec<Piece<'a>>, AllocError>
        ensures { IfOk result (λ row. flat_map piece_bytes row.items ≡ content_bytes self.entry) }
    {
        match self {
            Content::Part(part) => {
                let mut row = Vec::new(alloc);
                row.push(Piece::Part(part))?;
                Ok(row)
            }
            Content::Row(row) => Ok(row),
        }
    }

    /// As a text of its own.
    pub fn to_text(&self, alloc: Global) -> Result<String, AllocError>
        ensures { IfOk result (λ s. string_bytes s ≡ content_bytes self.now) }
    {
        match self {
            Content::Part(part) => String::from_str(alloc, part),
            Content::Row(pieces) => written(alloc, pieces),
        }
    }

    /// Whether the content has more characters than this.
    pub(crate) fn is_longer_than(&self, limit: usize) -> bool
        ensures { result ≡ nat_lt limit (length (chars (content_bytes self.now))) }
    {
        match self {
            Content::Part(part) => has_more_than(part, limit),
            Content::Row(pieces) => have_more_than(pieces, limit),
        }
    }
}

/// Pieces, one after another.
fn written(alloc: Global, pieces: &[Piece<'_>]) -> Result<String, AllocError>
    ensures { IfOk result (λ s. string_bytes s ≡ flat_map piece_bytes pieces.now) }
{
    let mut text = String::new(alloc);
    for piece in pieces {
        match piece {
            Piece::Part(part) => text.push_str(part)?,
            Piece::Character(character) => text.push(*character)?,
        }
    }
    Ok(text)
}

/// Pieces have more characters than this.
fn have_more_than(pieces: &[Piece<'_>], limit: usize) -> bool
    ensures { result ≡ nat_lt limit (length (chars (flat_map piece_bytes pieces.now))) }
{
    let mut left = limit;
    for piece in pieces {
        let size = size_of(piece);
        if size > left {
            return true;
        }
        left -= size;
    }
    false
}

/// How many characters a piece has.
fn size_of(piece: &Piece<'_>) -> usize
    ensures size { result ≡ length (chars (piece_bytes piece.now)) }
    ensures utf8 { IsUtf8 (piece_bytes piece.now) }
{
    match piece {
        Piece::Part(part) => count(part),
        Piece::Character(character) => one(*character),
    }
}

/// A part has more characters than this. Where its bytes aren't more, they aren't counted.
fn has_more_than(part: &str, limit: usize) -> bool
    ensures { result ≡ nat_lt limit (length (chars part.now)) }
{
    part.len() > limit && count(part) > limit
}

/// How many characters a part has.
fn count(part: &str) -> usize
    ensures size { result ≡ length (chars part.now) }
    ensures utf8 { IsUtf8 part.now }
{
    part.chars().count()
}

/// A character is one.
#[inline(always)]
fn one(character: char) -> usize
    ensures one { result ≡ 1 }
    ensures alone { IsAlone character }
{
    1
}
