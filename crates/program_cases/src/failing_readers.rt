//! Readers that fail.
use crate::sessions::push_input;
use std::alloc::Global;
use std::io;
use std::io::{ErrorKind, Read};
use std::sync::Wait;
use std::thread::Threads;
use text_cases::Answer;

/// Gives a text in pieces of at most so many bytes, and fails after it.
#[derive(Drop)]
pub(crate) struct Broken<'a> {
    pub(crate) text: &'a [u8],
    pub(crate) piece: usize,
    pub(crate) kind: ErrorKind,
}

impl Read for Broken<'_> {
    fn read(&mut self, buf: &mut [u8]) -> io::Result<usize> {
        if self.text.is_empty() {
            return Err(io::Error::from(self.kind));
        }
        let count = self.piece.min(buf.len());
        self.text.read(&mut buf[..count])
    }
}

/// The answer where a read fails after a text, which comes in such pieces.
pub(crate) fn push_broken<H: Threads + Wait + Sync>(
    rt: &H,
    alloc: Global,
    text: &[u8],
    piece: usize,
    answer: &mut Answer,
) {
    let kind = ErrorKind::Other;
    push_input(rt, alloc, Broken { text, piece, kind }, answer);
}

/// The answer where it fails after so many letters.
pub(crate) fn push_letters<H: Threads + Wait + Sync>(
    rt: &H,
    alloc: Global,
    count: usize,
    answer: &mut Answer,
) {
    match vec![in alloc; b'a'; count] {
        Ok(letters) => push_broken(rt, alloc, letters.as_slice(), 8_192, answer),
        Err(_) => answer.note_no_memory(),
    }
}
