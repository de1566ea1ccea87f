//! The rows of a worker's table.
ghost use Rattle.std.specs.Prelude.{◌≡◌, ◌≤◌, ◌<◌, ◌+◌, ◌^◌, IfOk, length, map};
ghost use Rattle.std.specs.List.{list_all};
ghost use Rattle.erl_term.specs.Value.{value_of};
ghost use Rattle.worker_table.specs.Decide.{step_of, change_of};
ghost use Rattle.worker_table.specs.Headed.{row_has_version};
ghost use Rattle.worker_table.specs.InMemory.{keyed_row_of, old_of, row_of};
ghost use Rattle.worker_table.specs.Indexed.{fewest_comparisons, lower};

use crate::keyed::Keyed;
use crate::keyed_row::KeyedRow;
use crate::row::Row;
use crate::{Index, Old, Step, Ticks};
use erl_term::Term;
use std::alloc::{AllocError, Global};
use std::marker::Model;

// The rows, with an index of those that need a state and one of those that need an input alone. Whatever the brand of the keys,
// a call is answered by a counted search: no counter of it is made here, and the keys are compared in no other way.
#[derive(Drop)]
pub(crate) struct Rows<B> {
    rows: Vec<KeyedRow<B>>,
    by_state: Index<B>,
    by_input: Index<B>,
}

impl<B> Model for Rows<B> {
    ghost use Rattle.std.specs.Prelude.{List, map};
    ghost use Rattle.worker_table.specs.Codes.{rows_code};
    ghost use Rattle.worker_table.specs.Indexed.{IsIndexOf};
    ghost use Rattle.worker_table.specs.InMemory.{keyed_row_of};
    ghost use Rattle.worker_table.specs.Table.{Row};
    ghost use Rattle.worker_table.specs.declared.keyed.Keyed.TheVariants.{ByState, ByInput};

    ghost Value = { List Row };

    ghost coded = { rows_code };

    ghost view = { λ r. map keyed_row_of r.rows.items };

    ghost invariant = { λ r. IsIndexOf ByState (map keyed_row_of r.rows.items) r.by_state
        × IsIndexOf ByInput (map keyed_row_of r.rows.items) r.by_input };
}

impl<B> Rows<B> {
    pub(crate) fn new(alloc: Global, rows: Vec<Row>) -> Result<Rows<B>, AllocError>
        ensures { IfOk result (λ r. r ≡ map row_of rows.items) }
    {
        let by_state = Keyed::ByState.index(alloc, rows.as_slice())?;
        let by_input = Keyed::ByInput.index(alloc, rows.as_slice())?;
        Ok(Rows {
            rows: keyed_rows(alloc, rows)?,
            by_state,
            by_input,
        })
    }

    pub(crate) fn len(&self) -> usize
        ensures { result ≡ length self.now }
    {
        self.rows.len()
    }

    // What comes of a call, with a tick for each comparison of keys.
    pub(crate) fn step(&self, state: u32, input: u32, ticks: &mut Ticks<B>) -> Step
        requires { ticks.old + 128 < 2 ^ 64 }
        ensures step { result ≡ step_of self.now state input }
        ensures bound { (ticks.old ≤ ticks.new) × (ticks.new ≤ ticks.old + 128) }
        ensures cost { length self.now ≤ 4096 → ticks.new ≤ ticks.old + 26 }
        ensures least { ticks.old + fewest_comparisons self.now ≤ ticks.new }
    {
        let by_state = self.by_state.find((state, input), ticks);
        let by_input = self.by_input.find((0, input), ticks);
        let rows = self.rows.as_slice();
        match lower(by_state, by_input) {
            Some(number) => rows[number].made_of(state),
            None => Step::Crashes,
        }
    }

    // The state by the first row that fits a change of code.
    pub(crate) fn change(&self, old: &Old, extra: &Term, state: u32) -> Option<u32>
        ensures { result ≡ change_of self.now (old_of old.now) (value_of extra.now) state }
    {
        first_change(self.rows.as_slice(), old, extra, state)
    }

    pub(crate) fn copy(&self, alloc: Global) -> Result<Rows<B>, AllocError>
        ensures { IfOk result (λ copied. copied ≡ self.now) }
    {
        Ok(Rows {
            rows: copied_rows(alloc, self.rows.as_slice())?,
            by_state: self.by_state.copy(alloc)?,
            by_input: self.by_input.copy(alloc)?,
        })
    }

    // Whether each version in them is one.
    pub(crate) fn have_versions(&self) -> bool
        ensures { result ≡ list_all row_has_version self.now }
    {
        rows_have_versions(self.rows.as_slice())
    }
}

// The lower of two numbers, where they are there.
fn lower(one: Option<usize>, other: Option<usize>) -> Option<usize>
    ensures { result ≡ lower one other }
{
    match (one, other) {
        (Some(one), Some(other)) => Some(one.min(other)),
        (Some(one), None) => Some(one),
        (None, other) => other,
    }
}

fn keyed_rows<B>(alloc: Global, rows: Vec<Row>) -> Result<Vec<KeyedRow<B>>, AllocError>
    ensures { IfOk result (λ keyed. map keyed_row_of keyed.items ≡ map row_of rows.items) }
{
    let mut keyed = Vec::with_capacity(alloc, rows.len())?;
    for row in rows {
        keyed.push(row.into_keyed())?;
    }
    Ok(keyed)
}

fn first_change<B>(rows: &[KeyedRow<B>], old: &Old, extra: &Term, state: u32) -> Option<u32>
    ensures { result
        ≡ change_of (map keyed_row_of rows.now) (old_of old.now) (value_of extra.now) state }
{
    for row in rows {
        if let Some(next) = row.change(old, extra, state) {
            return Some(next);
        }
    }
    None
}

fn copied_rows<B>(alloc: Global, rows: &[KeyedRow<B>]) -> Result<Vec<KeyedRow<B>>, AllocError>
    ensures { IfOk result (λ copied. map keyed_row_of copied.items ≡ map keyed_row_of rows.now) }
{
    let mut copied = Vec::with_capacity(alloc, rows.len())?;
    for row in rows {
        copied.push(row.copy(alloc)?)?;
    }
    Ok(copied)
}

fn rows_have_versions<B>(rows: &[KeyedRow<B>]) -> bool
    ensures { result ≡ list_all row_has_version (map keyed_row_of rows.now) }
{
    for row in rows {
        if !row.has_version() {
            return false;
        }
    }
    true
}
