//! A file as it is given in a session.
ghost use Rattle.std.specs.Prelude.{◌≡◌, ℕ, List, [], ◌∷◌, ◌++◌, OnOk, IfErr};

use crate::error::SessionError;
use crate::line::Line;
use std::alloc::Global;

/// How many bytes a file has at most, its newlines counted.
pub const MOST_FILE: usize = 1_048_576;

/// A file as it is given in a session.
pub enum GivenFile {
    /// All its bytes.
    Bytes(Vec<u8>),
    /// The file has more bytes than a file may have, which aren't kept.
    TooLarge,
}

// Let go by one call: a derived drop would part each way on which a file is let go in two.
impl Drop for GivenFile {
    fn drop(self) {
        match self {
            GivenFile::Bytes(_bytes) => {}
            GivenFile::TooLarge => {}
        }
    }
}

impl GivenFile {
    ghost use Rattle.session_input.specs.Commands.{IsGiven, most_file};
    ghost use Rattle.session_input.specs.Lines.{IsKept};

    /// A file without lines.
    pub(crate) fn new(alloc: Global) -> GivenFile
        ensures { IsGiven result [] }
    {
        GivenFile::Bytes(Vec::new(alloc))
    }

    /// Puts a line and its newline at the end.
    pub(crate) fn push_line(&mut self, line: &Line) -> Result<(), SessionError>
        ensures pushed { OnOk result ((bs l : List ℕ) → IsGiven self.old bs
            → IsKept most_file line.now l → IsGiven self.new (bs ++ (l ++ 10 ∷ []))) }
        ensures memory { IfErr result (λ e. e ≡ SessionError.NoMemory) }
    {
        match (&mut *self, line) {
            (GivenFile::Bytes(bytes), Line::Text(text))
                if bytes.len() < MOST_FILE && text.len() < MOST_FILE - bytes.len() => {
                bytes.extend_from_slice(text)?;
                bytes.push(b'\n')?;
            }
            _ => *self = GivenFile::TooLarge,
        }
        Ok(())
    }
}
