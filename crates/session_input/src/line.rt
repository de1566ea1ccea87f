//! A line as it is kept.
ghost use Rattle.std.specs.Prelude.{◌≡◌, ◌≤◌, ℕ, List, [], ◌∷◌, ◌++◌, OnOk, IfErr};

use crate::error::SessionError;

/// A line of the input, without its newline.
pub enum Line {
    /// All its bytes.
    Text(Vec<u8>),
    /// The line was longer than what was asked for, and isn't kept.
    Long,
}

// Let go by one call: a derived drop would part each way on which a line is let go in two.
impl Drop for Line {
    fn drop(self) {
        match self {
            Line::Text(_bytes) => {}
            Line::Long => {}
        }
    }
}

impl Line {
    ghost use Rattle.session_input.specs.Lines.{IsKept};
    ghost use Rattle.session_input.specs.Commands.{is_end};

    /// Puts a byte at its end, unless it gets longer than `most` by that: then it isn't kept.
    pub fn push(&mut self, byte: u8, most: usize) -> Result<(), SessionError>
        ensures pushed { OnOk result ((l : List ℕ) → IsKept most self.old l
            → IsKept most self.new (l ++ byte ∷ [])) }
        ensures memory { IfErr result (λ e. e ≡ SessionError.NoMemory) }
    {
        match self {
            Line::Text(bytes) if bytes.len() < most => bytes.push(byte)?,
            _ => *self = Line::Long,
        }
        Ok(())
    }

    /// Whether it stands after the last line of a file.
    pub fn is_end(&self) -> bool
        ensures { (most : ℕ) (l : List ℕ) → 4 ≤ most → IsKept most self.now l → result ≡ is_end l }
    {
        match self {
            Line::Text(bytes) => bytes.as_slice() == b".end".as_slice(),
            Line::Long => false,
        }
    }
}
