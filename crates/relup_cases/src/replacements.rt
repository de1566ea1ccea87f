//! The replacement of a file over a host that notes its calls.

use file_replacement::{NewFiles, replace_file};
use std::io;
use std::io::ErrorKind;
use text_cases::Answer;

// A host that notes its calls, of which one fails, the first being number 1.
#[derive(Drop)]
struct NotedCalls<'a> {
    answer: &'a mut Answer,
    calls: u64,
    failing: u64,
    kind: ErrorKind,
}

impl NotedCalls<'_> {
    fn note(&mut self, call: &str, path: &str) -> io::Result<()> {
        self.calls = self.calls.saturating_add(1);
        self.answer.push(call);
        self.answer.push(path);
        if self.calls == self.failing {
            self.answer.push(" fails, ");
            return Err(io::Error::from(self.kind));
        }
        self.answer.push(", ");
        Ok(())
    }
}

impl NewFiles for NotedCalls<'_> {
    ghost did = { λ call before after. Unit {0} };

    ghost failed = { λ call before after. Unit {0} };

    fn make(&mut self, path: &str) -> io::Result<()> {
        self.note("make ", path)
    }

    fn write(&mut self, bytes: &[u8]) -> io::Result<()> {
        self.note("write ", str::from_utf8(bytes).unwrap_or(""))
    }

    fn sync(&mut self) -> io::Result<()> {
        self.note("sync", "")
    }

    fn rename(&mut self, from: &str, to: &str) -> io::Result<()> {
        self.answer.push(from);
        self.note(" becomes ", to)
    }

    fn sync_folder_of(&mut self, path: &str) -> io::Result<()> {
        self.note("sync the folder of ", path)
    }

    fn remove(&mut self, path: &str) -> io::Result<()> {
        self.note("remove ", path)
    }
}

/// Appends the calls by which the file `relup` gets the text `new`, and what comes of it. The text of a case is the number of the
/// call that fails, 0 for none, or `exists`, where the first one finds the new file there.
pub(crate) fn push_replaced(words: &str, answer: &mut Answer) {
    let (failing, kind) = match words {
        "exists" => (1, ErrorKind::AlreadyExists),
        _ => (words.parse().unwrap_or(0), ErrorKind::PermissionDenied),
    };
    let mut host = NotedCalls {
        answer,
        calls: 0,
        failing,
        kind,
    };
    let done = replace_file(&mut host, "relup", "relup.new", b"new");
    match done {
        Ok(()) => host.answer.push("done"),
        Err(error) => host.answer.push_shown(&error),
    }
}
