//! Which rows an index has.
ghost use Rattle.std.specs.Prelude.{◌≡◌, IfOk, map};
ghost use Rattle.worker_table.specs.InMemory.{row_of};
ghost use Rattle.worker_table.specs.Indexed.{IsIndexOf, key_of};

use crate::Index;
use crate::row::Row;
use std::alloc::{AllocError, Global};

// The rows of an index: `on` and `stop`, by their state and input, or `add`, by its input.
#[derive(Clone, Copy)]
pub(crate) enum Keyed {
    ByState,
    ByInput,
}

impl Keyed {
    // Its index of these rows.
    pub(crate) fn index<B>(self, alloc: Global, rows: &[Row]) -> Result<Index<B>, AllocError>
        ensures { IfOk result (λ index. IsIndexOf self (map row_of rows.now) index) }
    {
        let mut keyed = Vec::with_capacity(alloc, rows.len())?;
        for number in 0..rows.len() {
            if let Some(key) = self.key(&rows[number]) {
                keyed.push((key, number))?;
            }
        }
        Index::of(alloc, keyed.as_slice())
    }

    fn key(self, row: &Row) -> Option<(u32, u32)>
        ensures { result ≡ key_of self (row_of row.now) }
    {
        match (self, row) {
            (Keyed::ByState, Row::On(state, input, _, _)) => Some((*state, *input)),
            (Keyed::ByState, Row::Stop(state, input, _)) => Some((*state, *input)),
            (Keyed::ByInput, Row::Add(input, _)) => Some((0, *input)),
            _ => None,
        }
    }
}
