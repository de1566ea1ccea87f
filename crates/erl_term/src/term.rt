//! A term of Erlang, as the files of a release have them.
ghost use Rattle.std.specs.Prelude.{◌≡◌};
ghost use Rattle.erl_term.specs.Value.{value_of};

use std::alloc::AllocError;

/// A term. A string is the list of its characters.
#[derive(Debug)]
pub enum Term {
    Int(i64),
    Atom(String),
    List(Vec<Term>),
    Tuple(Vec<Term>),
    Bin(Vec<u8>),
}

// Let go by one call: a derived drop would stand field by field at each exit of a caller.
impl Drop for Term {
    fn drop(self) {
        match self {
            Term::Int(_number) => {}
            Term::Atom(_name) => {}
            Term::List(_members) | Term::Tuple(_members) => {}
            Term::Bin(_bytes) => {}
        }
    }
}

/// A term of a text, with the places where it begins and ends.
#[derive(Drop)]
pub struct Spanned {
    pub term: Term,
    /// The place of its first byte.
    pub from: usize,
    /// The place after its last byte; its dot stands from here on.
    pub to: usize,
}
