//! A library.
ghost use Rattle.std.specs.Prelude.{◌≡◌, map};
ghost use Rattle.std.specs.Option.{option_map};
ghost use Rattle.library.specs.InMemory.{library_of, table_term_of};
ghost use Rattle.library.specs.Library.{is_at, is_same_library, is_same_table, are_same_tables};

use mod_table::{ModFile, is_same};
use rel_files::App;

/// An application with its modules: what the files of its folder say.
pub struct Library {
    /// What its `.app` file says.
    pub app: App,
    /// Of each module of the application, in the order of the `.app` file, what its `.mod` file says. None for a module
    /// without one.
    pub tables: Vec<Option<ModFile>>,
}

// Let go by one call: a derived drop would stand field by field at each exit of a caller.
impl Drop for Library {
    fn drop(self) {
        let Library {
            app: _app,
            tables: _tables,
        } = self;
    }
}

impl Library {
    /// Whether it is of the application of this name and this version.
    pub fn is_at(&self, name: &str, vsn: &str) -> bool
        ensures { result ≡ is_at name.now vsn.now (library_of self.now) }
    {
        self.app.name.as_str() == name && self.app.vsn.as_str() == vsn
    }

    /// Whether it has the same specification and the same tables: the whole terms are compared. It takes no memory.
    pub fn is_same(&self, other: &Library) -> bool
        ensures { result ≡ is_same_library (library_of self.now) (library_of other.now) }
    {
        is_same(&self.app.whole, &other.app.whole)
            && are_same_tables(self.tables.as_slice(), other.tables.as_slice())
    }
}

fn is_same_table(left: &Option<ModFile>, right: &Option<ModFile>) -> bool
    ensures { result ≡ is_same_table (option_map table_term_of left.now)
        (option_map table_term_of right.now) }
{
    match (left, right) {
        (Some(left), Some(right)) => is_same(&left.term, &right.term),
        (None, None) => true,
        (Some(_), None) | (None, Some(_)) => false,
    }
}

fn are_same_tables(left: &[Option<ModFile>], right: &[Option<ModFile>]) -> bool
    ensures { result ≡ are_same_tables (map (λ t. option_map table_term_of t) left.now)
        (map (λ t. option_map table_term_of t) right.now) }
{
    let mut others = right;
    for table in left {
        let Some((other, rest)) = others.split_first() else {
            return false;
        };
        if !is_same_table(table, other) {
            return false;
        }
        others = rest;
    }
    others.is_empty()
}
