//! The bytes of a text, as far as they are UTF-8.
ghost use Rattle.std.specs.Prelude.{◌≡◌, ◌+◌, ◌-◌, ◌<◌, ◌≤◌, ◌^◌, length, drop, slice_index, slice_get, slice_range, if◌then◌else◌, Some, None, IfSome, EachIndex};
ghost use Rattle.std.specs.Str.{IsCharBoundary, IsUtf8};
ghost use Rattle.erl_number.specs.Texts.{sealed};
ghost use Rattle.erl_number.specs.Escapes.{itself};
ghost use Rattle.erl_number.specs.Escapes.Character.{means};

/// What stands at a place of a text.
#[derive(Clone, Copy)]
pub enum At {
    Byte(u8),
    /// Bytes that are not UTF-8. Nothing after them is read.
    NotUtf8,
    End,
}

/// A text as far as it is UTF-8.
#[derive(Clone, Copy)]
pub struct Text<'a> {
    pub valid: &'a str,
    /// More bytes follow, which are not UTF-8.
    pub is_spoilt: bool,
}

impl<'a> Text<'a> {
    ghost use Rattle.erl_number.specs.Views.{text_bytes};
    ghost use Rattle.erl_number.specs.Scanned.{byte_in, stands_at, IsBehind};

    /// The bytes as a text.
    pub fn of(bytes: &'a [u8]) -> Text<'a>
        ensures { text_bytes result ≡ sealed bytes.now }
    {
        match bytes.utf8_chunks().next() {
            Some(chunk) => {
                let valid = chunk.valid();
                Text {
                    valid,
                    is_spoilt: valid.len() < bytes.len(),
                }
            }
            None => Text {
                valid: "",
                is_spoilt: false,
            },
        }
    }

    /// What stands at a place.
    pub fn at(self, place: usize) -> At
        ensures byte { stands_at result ≡ slice_get (text_bytes self.entry) place }
        ensures within { IfSome (stands_at result) (λ _. place < 2 ^ 63) }
        // What `part` asks of its callers rests on this.
        ensures utf8 { IsUtf8 self.entry.valid.now }
    {
        let bytes = self.valid.as_bytes();
        if place < bytes.len() {
            At::Byte(bytes[place])
        } else if place == bytes.len() && self.is_spoilt {
            At::NotUtf8
        } else {
            At::End
        }
    }

    /// The byte at a place, as far as the text is UTF-8.
    pub fn byte(self, place: usize) -> Option<u8>
        ensures is { result ≡ byte_in (slice_get (text_bytes self.entry) place) }
        ensures within { IfSome result (λ _. place < 2 ^ 63) }
        // After a byte that is a character of its own the text may be cut.
        ensures cut { IfSome result
            (λ byte. byte < 128 → IsCharBoundary self.entry.valid.now (place + 1)) }
    {
        match self.at(place) {
            At::Byte(byte) => Some(byte),
            At::NotUtf8 | At::End => None,
        }
    }

    /// The place from which on the bytes are not UTF-8, if there is one.
    pub fn bad_place(self) -> Option<usize>
        ensures place { result
            ≡ (if self.entry.is_spoilt then Some (length self.entry.valid.now) else None) }
        ensures bytes { EachIndex self.entry.valid.now
            (λ k. slice_index self.entry.valid.now k < 256) }
    {
        let bytes = self.valid.as_bytes();
        if self.is_spoilt {
            Some(bytes.len())
        } else {
            None
        }
    }

    /// The text between two places.
    pub fn part(self, from: usize, to: usize) -> &'a str
        requires ordered { from ≤ to }
        requires begins { IsCharBoundary self.valid.now from }
        requires ends { IsCharBoundary self.valid.now to }
        ensures { result.now ≡ slice_range self.entry.valid.now from to }
    {
        let valid = self.valid;
        &valid[from..to]
    }

    /// The character that begins at a place, and the place after it.
    pub(crate) fn character_at(self, at: usize) -> (char, usize)
        requires within { at < length self.valid.now }
        requires begins { IsCharBoundary self.valid.now at }
        ensures is { itself (slice_index (text_bytes self.entry) at)
            (drop (at + 1) (text_bytes self.entry)) ≡ means result.0 (result.1 - at) }
        ensures behind { IsBehind self.entry at result.1 }
    {
        let valid = self.valid;
        let length = valid.as_bytes().len();
        let mut characters = valid[at..].chars();
        match characters.next() {
            Some(character) => (character, length - characters.as_str().len()),
            None => unreachable!(),
        }
    }
}
