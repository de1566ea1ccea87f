//! A row of a worker's table, as it is read.
ghost use Rattle.std.specs.Prelude.{◌≡◌};
ghost use Rattle.worker_table.specs.InMemory.{keyed_row_of, row_of};

use crate::keyed_row::KeyedRow;
use crate::{Key, Old};
use erl_term::Term;

pub(crate) enum Row {
    // In this state, at this input: the next state and the reply.
    On(u32, u32, u32, u32),
    // At this input: what is added to the state.
    Add(u32, u32),
    // In this state, at this input: the last reply.
    Stop(u32, u32, u32),
    // From this version with this extra term: the new states of old ones.
    Change(Old, Term, Vec<(u32, u32)>),
}

// Let go by one call: a derived drop would stand field by field at each exit of a caller.
impl Drop for Row {
    fn drop(self) {
        match self {
            Row::Change(_old, _extra, _states) => {}
            Row::On(_, _, _, _) | Row::Add(_, _) | Row::Stop(_, _, _) => {}
        }
    }
}

impl Row {
    // The row as a table keeps it. An `add` row has a key of its input alone.
    pub(crate) fn into_keyed<B>(self) -> KeyedRow<B>
        ensures { keyed_row_of result ≡ row_of self }
    {
        match self {
            Row::On(state, input, next, reply) => {
                KeyedRow::On(Key::new((state, input)), next, reply)
            }
            Row::Add(input, summand) => KeyedRow::Add(Key::new((0, input)), summand),
            Row::Stop(state, input, reply) => KeyedRow::Stop(Key::new((state, input)), reply),
            Row::Change(old, extra, moves) => KeyedRow::Change(old, extra, moves),
        }
    }
}
