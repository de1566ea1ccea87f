//! A sorted index of rows.
ghost use Rattle.std.specs.Prelude.{◌≡◌, ◌<◌, ◌≤◌, ◌+◌, ◌-◌, ◌*◌, ◌/◌, ◌^◌, IfOk, length};
ghost use Rattle.worker_table.specs.Keys.{Pair, number_at};

use crate::{Counted, Key, Ticks};
use std::alloc::{AllocError, Global};
use std::cmp::Ordering;
use std::collections::BTreeMap;
use std::marker::Model;

/// Rows by their keys: each key once, in order, with the number of the first row that has it.
#[derive(Drop)]
pub struct Index<B = Counted> {
    entries: Vec<Entry<B>>,
}

impl<B> Model for Index<B> {
    ghost use Rattle.std.specs.Prelude.{ℕ, List, map};
    ghost use Rattle.worker_table.specs.Keys.{Pair, IsRising};
    ghost use Rattle.worker_table.specs.Stored.{row_of};

    ghost Value = { List (Pair × ℕ) };

    ghost view = { λ i. map row_of i.entries.items };

    ghost invariant = { λ i. IsRising (map row_of i.entries.items) };
}

#[derive_where(Clone, Copy)]
pub(crate) struct Entry<B> {
    key: Key<B>,
    number: usize,
}

impl<B> Index<B> {
    /// The index of these rows, each of which is its key, a state and an input, and its number.
    pub fn of(alloc: Global, rows: &[((u32, u32), usize)]) -> Result<Index<B>, AllocError>
        ensures finds { IfOk result (λ index. (wanted : Pair) →
            number_at wanted index ≡ number_at wanted rows.now) }
        ensures size { IfOk result (λ index. length index ≤ length rows.now) }
    {
        let first = first_rows(alloc, rows)?;
        let mut entries = Vec::with_capacity(alloc, first.len())?;
        for (pair, number) in first.iter() {
            entries.push(Entry {
                key: Key::new(*pair),
                number: *number,
            })?;
        }
        Ok(Index { entries })
    }

    /// The number under this key, with one tick for each comparison.
    pub fn find(&self, wanted: (u32, u32), ticks: &mut Ticks<B>) -> Option<usize>
        requires { ticks.old + 64 < 2 ^ 64 }
        ensures found { result ≡ number_at wanted self.now }
        ensures cost { 2 ^ (ticks.new - ticks.old) ≤ 2 * length self.now + 1 }
        ensures bound { (ticks.old ≤ ticks.new) × (ticks.new ≤ ticks.old + 64) }
        ensures least { 0 < length self.now → ticks.old < ticks.new }
    {
        let entries = self.entries.as_slice();
        let mut low = 0;
        let mut high = entries.len();
        while low < high {
            let at = middle(low, high);
            let entry = entries[at];
            match entry.key.order_of(wanted, ticks) {
                Ordering::Less => high = at,
                Ordering::Equal => return Some(entry.number),
                Ordering::Greater => low = at + 1,
            }
        }
        None
    }

    /// An equal index.
    pub fn copy(&self, alloc: Global) -> Result<Index<B>, AllocError>
        ensures { IfOk result (λ index. index ≡ self.now) }
    {
        Ok(Index {
            entries: Vec::from_slice(alloc, self.entries.as_slice())?,
        })
    }
}

// A place with at most half of the others on either side.
fn middle(low: usize, high: usize) -> usize
    requires { low < high }
    ensures within { (low ≤ result) × (result < high) }
    ensures halves { (result - low ≤ (high - low) / 2) × (high - (result + 1) ≤ (high - low) / 2) }
{
    low + (high - low) / 2
}

// The first row of each key.
fn first_rows(
    alloc: Global,
    rows: &[((u32, u32), usize)],
) -> Result<BTreeMap<(u32, u32), usize>, AllocError>
    ensures finds { IfOk result (λ first. (wanted : Pair) →
        number_at wanted first.entries ≡ number_at wanted rows.now) }
    ensures size { IfOk result (λ first. length first.entries ≤ length rows.now) }
{
    let mut first = BTreeMap::new(alloc);
    for (pair, number) in rows {
        if !first.contains_key(pair) {
            first.insert(*pair, *number)?;
        }
    }
    Ok(first)
}
