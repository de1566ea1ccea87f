//! Writers of little room.
use std::io;
use std::io::{ErrorKind, Write};
use text_cases::{first_word, number};

/// How much a writer takes: so many bytes at a write, so many writes and so many flushes.
#[derive(Clone, Copy)]
pub(crate) struct Room {
    pub(crate) piece: usize,
    pub(crate) writes: usize,
    pub(crate) flushes: usize,
    /// Whether a further write takes nothing, in place of failing.
    pub(crate) is_full: bool,
}

/// Room for all that the cases write.
pub(crate) const WIDE: Room = Room {
    piece: 9_999,
    writes: 9_999,
    flushes: 9_999,
    is_full: true,
};

impl Room {
    /// Room for so many bytes, a byte at a write.
    pub(crate) fn of_bytes(bytes: usize) -> Room {
        Room {
            piece: 1,
            writes: bytes,
            flushes: 99,
            is_full: false,
        }
    }

    /// Room for two numbers of writes and flushes, and the text after them.
    pub(crate) fn of_words(piece: usize, text: &str) -> (Room, &str) {
        let (writes, rest) = first_word(text);
        let (flushes, rest) = first_word(rest);
        let room = Room {
            piece,
            writes: number(writes),
            flushes: number(flushes),
            is_full: true,
        };
        (room, rest)
    }
}

/// A writer with so much room.
#[derive(Drop)]
pub(crate) struct Bounded<'a> {
    pub(crate) room: Room,
    pub(crate) written: &'a mut Vec<u8>,
}

impl Write for Bounded<'_> {
    fn write(&mut self, buf: &[u8]) -> io::Result<usize> {
        if self.room.writes == 0 && self.room.is_full {
            return Ok(0);
        }
        if self.room.writes == 0 {
            return Err(io::Error::from(ErrorKind::Other));
        }
        self.room.writes -= 1;
        let count = self.room.piece.min(buf.len());
        self.written.write(&buf[..count])
    }

    fn flush(&mut self) -> io::Result<()> {
        if self.room.flushes == 0 {
            return Err(io::Error::from(ErrorKind::Other));
        }
        self.room.flushes -= 1;
        Ok(())
    }
}
