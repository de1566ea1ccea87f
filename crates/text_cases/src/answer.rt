//! The answer to a case.
use std::alloc::{AllocError, Global};
use std::fmt;

/// An answer that grows. What finds no memory is reported at the end, so that what appends to it has no failure of its own to
/// hand on.
#[derive(Drop)]
pub struct Answer {
    /// What was appended so far. Whoever writes to it directly notes what came of that.
    pub text: String,
    is_whole: bool,
}

impl Answer {
    /// An empty answer.
    pub fn new(alloc: Global) -> Answer {
        Answer {
            text: String::new(alloc),
            is_whole: true,
        }
    }

    /// The whole answer, if memory was there for all of it.
    pub fn finish(self) -> Result<String, AllocError> {
        if self.is_whole {
            Ok(self.text)
        } else {
            Err(AllocError)
        }
    }

    /// Keeps in mind that this found no memory.
    pub fn note(&mut self, done: Result<(), AllocError>) {
        if done.is_err() {
            self.note_no_memory();
        }
    }

    /// Keeps in mind that no memory was found.
    pub fn note_no_memory(&mut self) {
        self.is_whole = false;
    }

    /// Appends a text.
    pub fn push(&mut self, text: &str) {
        let done = self.text.push_str(text);
        self.note(done);
    }

    /// Appends a text after another.
    pub fn push_after(&mut self, before: &str, text: &str) {
        self.push(before);
        self.push(text);
    }

    /// Appends a number in decimal.
    pub fn push_number(&mut self, number: u64) {
        let done = write!(self.text, "{number}");
        self.note(done);
    }

    /// Appends a number after a text.
    pub fn push_counted(&mut self, before: &str, number: u64) {
        self.push(before);
        self.push_number(number);
    }

    /// Appends what a value shows to a user.
    pub fn push_shown<T: fmt::Display>(&mut self, value: &T) {
        let done = write!(self.text, "{value}");
        self.note(done);
    }

    /// Appends what a value shows to a programmer.
    pub fn push_debug<T: fmt::Debug>(&mut self, value: &T) {
        let done = write!(self.text, "{value:?}");
        self.note(done);
    }

    /// Appends bytes as a case has them: `~XX` stands for a byte that isn't printed, and for `~`.
    pub fn push_bytes(&mut self, bytes: &[u8]) {
        for byte in bytes {
            let done = match *byte {
                b' '..=b'}' => self.text.push(char::from(*byte)),
                other => write!(self.text, "~{other:02X}"),
            };
            self.note(done);
        }
    }

    /// Appends a text that was made, if memory was there for it.
    pub fn push_made(&mut self, made: &Result<String, AllocError>) {
        match made {
            Ok(text) => self.push(text.as_str()),
            Err(_) => self.note_no_memory(),
        }
    }

    /// Appends whether a call succeeded.
    pub fn push_is_ok(&mut self, is_ok: bool) {
        self.push(if is_ok { "ok" } else { "fails" });
    }
}
