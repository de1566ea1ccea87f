//! The table of a supervisor.
ghost use Rattle.std.specs.Prelude.{◌≡◌, IfOk, MatchOption, map};
ghost use Rattle.erl_term.specs.Value.{members_of};
ghost use Rattle.rel_files.specs.Name.{AreDistinct, IsFirstTwice};
ghost use Rattle.mod_table.specs.Headed.{ids, super_in};
ghost use Rattle.mod_table.specs.InMemory.{child_of};

use crate::Child;
use crate::child::children_in;
use erl_term::Term;
use rel_files::duplicates::first_name_twice;
use rel_files::parts::{list_in, three};
use rel_files::text::{is_version, name_in, version_or_empty};
use std::alloc::{AllocError, Global};
use std::marker::Model;

/// The table of a supervisor. Contracts see it as its name, its version and its children.
pub struct Super {
    name: String,
    vsn: String,
    children: Vec<Child>,
}

// Let go by one call: a derived drop would stand field by field at each exit of a caller.
impl Drop for Super {
    fn drop(self) {
        let Super {
            name: _name,
            vsn: _vsn,
            children: _children,
        } = self;
    }
}

impl Model for Super {
    ghost use Rattle.std.specs.Prelude.{map, string_bytes};
    ghost use Rattle.mod_table.specs.Table.{SuperTable};
    ghost use Rattle.mod_table.specs.InMemory.{child_of};

    ghost Value = { SuperTable };

    ghost view = { λ s. record {
      name = string_bytes s.name;
      vsn = string_bytes s.vsn;
      children = map child_of s.children.items;
    } };
}

impl Super {
    ghost use Rattle.rel_files.specs.Name.{is_text};

    /// The module.
    pub fn name(&self) -> &str
        ensures { result.now ≡ self.now.name }
    {
        self.name.as_str()
    }

    /// The version of the module.
    pub fn vsn(&self) -> &str
        ensures { result.now ≡ self.now.vsn }
    {
        self.vsn.as_str()
    }

    /// The children, in the order in which they start.
    pub fn children(&self) -> &[Child]
        ensures { map child_of result.now ≡ self.now.children }
    {
        self.children.as_slice()
    }

    // From what follows the first word of its term. Nothing for another shape.
    pub(crate) fn read(alloc: Global, members: &[Term]) -> Result<Option<Super>, AllocError>
        ensures { IfOk result (λ s. s ≡ super_in (members_of members.now)) }
    {
        let Some((name, vsn, children)) = three(members) else {
            return Ok(None);
        };
        let Some(name) = name_in(name) else {
            return Ok(None);
        };
        let Some(vsn) = version_or_empty(alloc, vsn)? else {
            return Ok(None);
        };
        let Some(children) = list_in(children) else {
            return Ok(None);
        };
        let Some(children) = children_in(alloc, children)? else {
            return Ok(None);
        };
        Ok(Some(Super {
            name: String::from_str(alloc, name)?,
            vsn,
            children,
        }))
    }

    // The first id that stands a second time.
    pub(crate) fn id_twice(&self, alloc: Global) -> Result<Option<&str>, AllocError>
        ensures { IfOk result (λ id.
            MatchOption id (AreDistinct (ids self.now)) (λ n. IsFirstTwice (ids self.now) n.now)) }
    {
        let ids = ids_of(alloc, self.children.as_slice())?;
        first_name_twice(alloc, ids.as_slice())
    }

    pub(crate) fn has_version(&self) -> bool
        ensures { result ≡ is_text 0x21 self.now.vsn }
    {
        is_version(self.vsn.as_str())
    }
}

fn ids_of<'a>(alloc: Global, children: &'a [Child]) -> Result<Vec<&'a str>, AllocError>
    ensures { IfOk result (λ ids. map (λ id. id.now) ids.items
        ≡ map (λ c. c.id) (map child_of children.now)) }
{
    let mut ids = Vec::with_capacity(alloc, children.len())?;
    for child in children {
        ids.push(child.id.as_str())?;
    }
    Ok(ids)
}
