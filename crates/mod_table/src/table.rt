//! The table of a module.
ghost use Rattle.std.specs.Prelude.{◌≡◌, IfOk, MatchOption};
ghost use Rattle.rel_files.specs.Name.{AreDistinct, IsFirstTwice};

use crate::{Super, Worker};
use erl_term::Term;
use std::alloc::{AllocError, Global};
use worker_table::parts::tagged_in;

/// The table of a module.
#[derive(Drop)]
pub enum Table {
    Worker(Worker),
    Super(Super),
}

impl Table {
    ghost use Rattle.erl_term.specs.Value.{value_of};
    ghost use Rattle.mod_table.specs.File.{name_of, vsn_of, table_in, ids_of, versions_of};

    /// The module.
    pub fn name(&self) -> &str
        ensures { result.now ≡ name_of self.now }
    {
        match self {
            Table::Worker(worker) => worker.name(),
            Table::Super(supervisor) => supervisor.name(),
        }
    }

    /// The version of the module.
    pub fn vsn(&self) -> &str
        ensures { result.now ≡ vsn_of self.now }
    {
        match self {
            Table::Worker(worker) => worker.vsn(),
            Table::Super(supervisor) => supervisor.vsn(),
        }
    }

    // Nothing for a term of another shape.
    pub(crate) fn read(alloc: Global, term: &Term) -> Result<Option<Table>, AllocError>
        ensures { IfOk result (λ t. t ≡ table_in (value_of term.now)) }
    {
        let Some((word, members)) = tagged_in(term) else {
            return Ok(None);
        };
        match word {
            "worker" => match Worker::read(alloc, members)? {
                Some(worker) => Ok(Some(Table::Worker(worker))),
                None => Ok(None),
            },
            "supervisor" => match Super::read(alloc, members)? {
                Some(supervisor) => Ok(Some(Table::Super(supervisor))),
                None => Ok(None),
            },
            _ => Ok(None),
        }
    }

    // The first id of a child that stands a second time.
    pub(crate) fn id_twice(&self, alloc: Global) -> Result<Option<&str>, AllocError>
        ensures { IfOk result (λ id.
            MatchOption id (AreDistinct (ids_of self.now))
            (λ n. IsFirstTwice (ids_of self.now) n.now)) }
    {
        match self {
            Table::Worker(_) => Ok(None),
            Table::Super(supervisor) => supervisor.id_twice(alloc),
        }
    }

    // Whether each version in it is one.
    pub(crate) fn has_versions(&self) -> bool
        ensures { result ≡ versions_of self.now }
    {
        match self {
            Table::Worker(worker) => worker.has_versions(),
            Table::Super(supervisor) => supervisor.has_version(),
        }
    }
}
