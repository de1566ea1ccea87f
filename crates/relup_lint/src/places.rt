//! Where names stand first.
ghost use Rattle.std.specs.Prelude.{◌≡◌, IfOk};
ghost use Rattle.std.specs.Map.{lookup};
ghost use Rattle.std.specs.Option.{option_map};
ghost use Rattle.std.specs.Str.{bytes_eq};
ghost use Rattle.relup_lint.specs.Names.{row_texts, version_texts};

use crate::names::first_by_name;
use std::alloc::{AllocError, Global};
use std::collections::BTreeMap;
use std::marker::Model;

/// Names with their places, where contracts see their texts.
pub(crate) struct Places<'a> {
    rows: Vec<(&'a str, usize)>,
    first: BTreeMap<&'a str, usize>,
}

// Let go by one call: a derived drop would stand field by field at each exit of a caller.
impl<'a> Drop for Places<'a> {
    fn drop(self) {
        let Places {
            rows: _rows,
            first: _first,
        } = self;
    }
}

impl<'a> Model for Places<'a> {
    ghost use Rattle.std.specs.Prelude.{ℕ, List};
    ghost use Rattle.relup_lint.specs.Names.{row_texts, FindsFirst};

    ghost Value = { List (List ℕ × ℕ) };

    ghost view = { λ p. row_texts p.rows.items };

    ghost invariant = { λ p. FindsFirst p.first (row_texts p.rows.items) };
}

impl<'a> Places<'a> {
    /// A table of these rows, to be searched by name.
    pub(crate) fn new(alloc: Global, rows: Vec<(&'a str, usize)>) -> Result<Places<'a>, AllocError>
        ensures { IfOk result (λ places. places ≡ row_texts rows.entry.items) }
    {
        let first = first_by_name(alloc, &rows)?;
        Ok(Places { rows, first })
    }

    /// The first place of a name.
    pub(crate) fn first(&self, name: &'a str) -> Option<usize>
        ensures { result ≡ lookup (bytes_eq name.now) self.now }
    {
        self.first.get(&name).copied()
    }
}

/// Libraries with their versions, where contracts see their texts.
pub(crate) struct Versions<'a> {
    rows: Vec<(&'a str, &'a str)>,
    first: BTreeMap<&'a str, &'a str>,
}

// Let go by one call: a derived drop would stand field by field at each exit of a caller.
impl<'a> Drop for Versions<'a> {
    fn drop(self) {
        let Versions {
            rows: _rows,
            first: _first,
        } = self;
    }
}

impl<'a> Model for Versions<'a> {
    ghost use Rattle.std.specs.Prelude.{ℕ, List};
    ghost use Rattle.relup_lint.specs.Names.{version_texts, FindsFirstVersion};

    ghost Value = { List (List ℕ × List ℕ) };

    ghost view = { λ v. version_texts v.rows.items };

    ghost invariant = { λ v. FindsFirstVersion v.first (version_texts v.rows.items) };
}

impl<'a> Versions<'a> {
    /// A table of these versions, to be searched by name.
    pub(crate) fn new(
        alloc: Global,
        rows: Vec<(&'a str, &'a str)>,
    ) -> Result<Versions<'a>, AllocError>
        ensures { IfOk result (λ versions. versions ≡ version_texts rows.entry.items) }
    {
        let first = first_by_name(alloc, &rows)?;
        Ok(Versions { rows, first })
    }

    /// The first version of a library.
    pub(crate) fn first(&self, app: &'a str) -> Option<&'a str>
        ensures { option_map (λ v. v.now) result ≡ lookup (bytes_eq app.now) self.now }
    {
        self.first.get(&app).copied()
    }
}
