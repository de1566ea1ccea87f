//! Why a text is no row of terms.
ghost use Rattle.std.specs.Prelude.{◌≡◌};
ghost use Rattle.erl_number.specs.declared.fault.TermFault.TheVariants.{NoMemory};

use std::alloc::{AllocError, AllocFailed};
use std::fmt::{self, Display, Formatter};

/// The first fault of a text. A place counts bytes from 0. It is shown by its name and its place.
#[derive(Clone, Copy, Debug, PartialEq, Eq)]
pub enum TermFault {
    /// A byte or a token that can't stand there, or a token that the end cuts off where no bracket is open.
    BadToken(usize),
    /// A number outside 64 bits signed, of a base outside 2 to 36, or with a digit outside its base; or a segment of a binary
    /// that is no byte or has a character that is none. It is reported where it begins.
    BadNumber(usize),
    /// The innermost bracket or quote that is open at the end.
    Unclosed(usize),
    /// A whole term has no dot after it: the place of what stands there instead, or of the text's end.
    MissingDot(usize),
    /// A form of Erlang that isn't read.
    Unsupported(usize),
    /// The first bracket that is one too many open at once.
    Deep(usize),
    /// No memory was left. It says nothing of the text.
    NoMemory,
}

impl TermFault {
    ghost use Rattle.erl_number.specs.FaultTexts.{term_fault_text, placed_text};

    /// Its name, and its place if it has one.
    fn name_and_place(self) -> (&'static str, Option<usize>)
        ensures { term_fault_text self ≡ placed_text result.0.now result.1 }
    {
        match self {
            TermFault::BadToken(at) => ("BadToken", Some(at)),
            TermFault::BadNumber(at) => ("BadNumber", Some(at)),
            TermFault::Unclosed(at) => ("Unclosed", Some(at)),
            TermFault::MissingDot(at) => ("MissingDot", Some(at)),
            TermFault::Unsupported(at) => ("Unsupported", Some(at)),
            TermFault::Deep(at) => ("Deep", Some(at)),
            TermFault::NoMemory => ("NoMemory", None),
        }
    }
}

impl From<AllocError> for TermFault {
    ghost from_gives = { λ _ f. f ≡ NoMemory };

    fn from(_: AllocError) -> TermFault {
        TermFault::NoMemory
    }
}

impl<T: Drop> From<AllocFailed<T>> for TermFault {
    ghost from_gives = { λ _ f. f ≡ NoMemory };

    fn from(_: AllocFailed<T>) -> TermFault {
        TermFault::NoMemory
    }
}

impl Display for TermFault {
    ghost use Rattle.std.specs.Prelude.{Some};
    ghost use Rattle.erl_number.specs.FaultTexts.{term_fault_text};

    ghost output = { λ f. Some (term_fault_text f) };

    fn fmt<W: fmt::Write>(&self, f: &mut Formatter<W>) -> fmt::Result {
        match self.name_and_place() {
            (name, Some(at)) => write!(f, "{name} {at}"),
            (name, None) => f.write_str(name),
        }
    }
}

impl std::error::Error for TermFault {}
