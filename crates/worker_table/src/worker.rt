//! The table of a worker.
ghost use Rattle.std.specs.Prelude.{◌≡◌, ◌≤◌, ◌<◌, ◌+◌, ◌^◌, IfOk, length};
ghost use Rattle.erl_term.specs.Value.{members_of, value_of};
ghost use Rattle.worker_table.specs.Decide.{step_of, change_of};
ghost use Rattle.worker_table.specs.Headed.{has_versions, worker_in};
ghost use Rattle.worker_table.specs.InMemory.{old_of};
ghost use Rattle.worker_table.specs.Indexed.{fewest_comparisons};

use crate::parts::number_in;
use crate::row_reader::rows_in;
use crate::rows::Rows;
use crate::{Counted, Old, Step, Ticks};
use erl_term::Term;
use rel_files::parts::{four, list_in};
use rel_files::text::{is_version, name_in, version_or_empty};
use std::alloc::{AllocError, Global};
use std::marker::Model;

/// The table of a worker. Contracts see it as its name, its version, its first state and its rows. Its keys have the brand of the
/// counters that anyone can make.
pub struct Worker<B = Counted> {
    name: String,
    vsn: String,
    first: u32,
    rows: Rows<B>,
}

// Let go by one call: a derived drop would stand field by field at each exit of a caller.
impl<B> Drop for Worker<B> {
    fn drop(self) {
        let Worker {
            name: _name,
            vsn: _vsn,
            first: _first,
            rows: _rows,
        } = self;
    }
}

impl<B> Model for Worker<B> {
    ghost use Rattle.std.specs.Prelude.{string_bytes};
    ghost use Rattle.worker_table.specs.Table.{WorkerTable};
    ghost use Rattle.worker_table.specs.Codes.{worker_code};

    ghost Value = { WorkerTable };

    ghost coded = { worker_code };

    ghost view = { λ w. record {
      name = string_bytes w.name;
      vsn = string_bytes w.vsn;
      first = w.first;
      rows = w.rows;
    } };
}

impl Worker {
    /// The module.
    pub fn name(&self) -> &str
        ensures { result.now ≡ self.now.name }
    {
        self.name.as_str()
    }

    /// The version of the module.
    pub fn vsn(&self) -> &str
        ensures { result.now ≡ self.now.vsn }
    {
        self.vsn.as_str()
    }

    /// The state in which a process starts.
    pub fn first(&self) -> u32
        ensures { result ≡ self.now.first }
    {
        self.first
    }

    /// How many rows it has.
    pub fn row_count(&self) -> usize
        ensures { result ≡ length self.now.rows }
    {
        self.rows.len()
    }

    /// What comes of a call in this state, with this input. It takes no memory.
    pub fn step(&self, state: u32, input: u32) -> Step
        ensures { result ≡ step_of self.now.rows state input }
    {
        self.step_counted(state, input, &mut Ticks::new())
    }

    /// The state after a change of code from this version, with this extra term. Nothing where the change fails. It takes no
    /// memory.
    pub fn change(&self, old: &Old, extra: &Term, state: u32) -> Option<u32>
        ensures { result ≡ change_of self.now.rows (old_of old.now) (value_of extra.now) state }
    {
        self.rows.change(old, extra, state)
    }

    /// An equal table.
    pub fn copy(&self, alloc: Global) -> Result<Worker, AllocError>
        ensures { IfOk result (λ copied. copied ≡ self.now) }
    {
        Ok(Worker {
            name: String::from_str(alloc, self.name.as_str())?,
            vsn: String::from_str(alloc, self.vsn.as_str())?,
            first: self.first,
            rows: self.rows.copy(alloc)?,
        })
    }

    /// From what follows the first word of its term. Nothing for another shape. Versions are not looked at: see
    /// [`Worker::has_versions`].
    pub fn read(alloc: Global, members: &[Term]) -> Result<Option<Worker>, AllocError>
        ensures { IfOk result (λ w. w ≡ worker_in (members_of members.now)) }
    {
        let Some((name, vsn, first, rows)) = four(members) else {
            return Ok(None);
        };
        let Some(name) = name_in(name) else {
            return Ok(None);
        };
        let Some(vsn) = version_or_empty(alloc, vsn)? else {
            return Ok(None);
        };
        let Some(first) = number_in(first) else {
            return Ok(None);
        };
        let Some(rows) = list_in(rows) else {
            return Ok(None);
        };
        let Some(rows) = rows_in(alloc, rows)? else {
            return Ok(None);
        };
        let rows = Rows::new(alloc, rows)?;
        Ok(Some(Worker {
            name: String::from_str(alloc, name)?,
            vsn,
            first,
            rows,
        }))
    }

    /// Whether each version in it is one: that of the module, and those of the changes of code.
    pub fn has_versions(&self) -> bool
        ensures { result ≡ has_versions self.now }
    {
        is_version(self.vsn.as_str()) && self.rows.have_versions()
    }
}

// Over any brand, so that no counter can be made here but the one that is given counts the comparisons.
impl<B> Worker<B> {
    /// What comes of a call in this state, with this input, with a tick for each comparison of keys: 26 at most where there are
    /// 4,096 rows or fewer. It takes no memory.
    pub fn step_counted(&self, state: u32, input: u32, ticks: &mut Ticks<B>) -> Step
        requires { ticks.old + 128 < 2 ^ 64 }
        ensures step { result ≡ step_of self.now.rows state input }
        ensures bound { (ticks.old ≤ ticks.new) × (ticks.new ≤ ticks.old + 128) }
        ensures cost { length self.now.rows ≤ 4096 → ticks.new ≤ ticks.old + 26 }
        ensures least { ticks.old + fewest_comparisons self.now.rows ≤ ticks.new }
    {
        self.rows.step(state, input, ticks)
    }
}
