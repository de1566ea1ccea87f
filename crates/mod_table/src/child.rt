//! The children of a supervisor.
ghost use Rattle.std.specs.Prelude.{◌≡◌, IfOk, map};
ghost use Rattle.std.specs.Option.{option_map};
ghost use Rattle.erl_term.specs.Value.{members_of, value_of};
ghost use Rattle.rel_files.specs.Parts.{word_in};
ghost use Rattle.mod_table.specs.Children.{start_in, restart_of, restart_in, is_shutdown, kind_of, kind_in, is_only, lists_only, child_members, child_parts, child_of_parts, child_in, children_in};
ghost use Rattle.mod_table.specs.InMemory.{child_of};

use erl_term::Term;
use rel_files::parts::{is_word, triple_in, word_in};
use rel_files::text::name_in;
use std::alloc::{AllocError, Global};

/// When a process that ended is started again (OTP: supervisor, restart()).
#[derive(Clone, Copy, Debug, PartialEq, Eq)]
pub enum Restart {
    /// Always.
    Permanent,
    /// If it ended abnormally.
    Transient,
    /// Never.
    Temporary,
}

/// What a child is (OTP: supervisor, worker()).
#[derive(Clone, Copy, Debug, PartialEq, Eq)]
pub enum ChildKind {
    Worker,
    Supervisor,
}

/// A child of a supervisor: `{Id, {Module, F, A}, Restart, Shutdown, Kind, [Module]}`. Of the rest, which has no effect, the
/// shape alone is looked at.
#[derive(Drop)]
pub struct Child {
    pub id: String,
    pub module: String,
    pub restart: Restart,
    pub kind: ChildKind,
}

// The members of a child specification.
#[derive(Clone, Copy)]
struct ChildParts<'a> {
    id: &'a Term,
    start: &'a Term,
    restart: &'a Term,
    shutdown: &'a Term,
    kind: &'a Term,
    modules: &'a Term,
}

// `M` of `{M, F, A}`.
fn start_in(term: &Term) -> Option<&str>
    ensures { option_map (λ name. name.now) result ≡ start_in (value_of term.now) }
{
    let (module, _, _) = triple_in(term)?;
    name_in(module)
}

fn restart_of(word: &str) -> Option<Restart>
    ensures { result ≡ restart_of word.now }
{
    match word {
        "permanent" => Some(Restart::Permanent),
        "transient" => Some(Restart::Transient),
        "temporary" => Some(Restart::Temporary),
        _ => None,
    }
}

// `brutal_kill`, `infinity` or a number from 0.
fn is_shutdown(term: &Term) -> bool
    ensures { result ≡ is_shutdown (value_of term.now) }
{
    match term {
        Term::Int(time) => *time >= 0,
        Term::Atom(word) => matches!(word.as_str(), "brutal_kill" | "infinity"),
        _ => false,
    }
}

fn kind_of(word: &str) -> Option<ChildKind>
    ensures { result ≡ kind_of word.now }
{
    match word {
        "worker" => Some(ChildKind::Worker),
        "supervisor" => Some(ChildKind::Supervisor),
        _ => None,
    }
}

// Whether it is the list of this atom alone.
fn lists_only(name: &str, term: &Term) -> bool
    ensures { result ≡ lists_only name.now (value_of term.now) }
{
    match term {
        Term::List(items) => is_only(name, items),
        _ => false,
    }
}

fn is_only(name: &str, items: &[Term]) -> bool
    ensures { result ≡ is_only name.now (members_of items.now) }
{
    match items {
        [item] => is_word(item, name),
        _ => false,
    }
}

fn child_parts(term: &Term) -> Option<ChildParts<'_>>
    ensures { option_map (λ p. record {
      id = value_of p.id.now;
      start = value_of p.start.now;
      restart = value_of p.restart.now;
      shutdown = value_of p.shutdown.now;
      kind = value_of p.kind.now;
      modules = value_of p.modules.now;
    }) result
        ≡ child_parts (value_of term.now) }
{
    match term {
        Term::Tuple(members) => child_members(members),
        _ => None,
    }
}

fn child_members(members: &[Term]) -> Option<ChildParts<'_>>
    ensures { option_map (λ p. record {
      id = value_of p.id.now;
      start = value_of p.start.now;
      restart = value_of p.restart.now;
      shutdown = value_of p.shutdown.now;
      kind = value_of p.kind.now;
      modules = value_of p.modules.now;
    }) result
        ≡ child_members (members_of members.now) }
{
    match members {
        [id, start, restart, shutdown, kind, modules] => Some(ChildParts {
            id,
            start,
            restart,
            shutdown,
            kind,
            modules,
        }),
        _ => None,
    }
}

impl Child {
    // Nothing for a term of another shape.
    fn read(alloc: Global, term: &Term) -> Result<Option<Child>, AllocError>
        ensures { IfOk result (λ c. option_map child_of c ≡ child_in (value_of term.now)) }
    {
        match child_parts(term) {
            Some(parts) => Child::of_parts(alloc, parts),
            None => Ok(None),
        }
    }

    fn of_parts(alloc: Global, parts: ChildParts<'_>) -> Result<Option<Child>, AllocError>
        ensures { IfOk result (λ c. option_map child_of c ≡ child_of_parts (record {
          id = value_of parts.entry.id.now;
          start = value_of parts.entry.start.now;
          restart = value_of parts.entry.restart.now;
          shutdown = value_of parts.entry.shutdown.now;
          kind = value_of parts.entry.kind.now;
          modules = value_of parts.entry.modules.now;
        })) }
    {
        let Some(id) = word_in(parts.id) else {
            return Ok(None);
        };
        let Some(module) = start_in(parts.start) else {
            return Ok(None);
        };
        let Some(restart) = restart_in(parts.restart) else {
            return Ok(None);
        };
        let Some(kind) = kind_in(parts.kind) else {
            return Ok(None);
        };
        if !is_shutdown(parts.shutdown) || !lists_only(module, parts.modules) {
            return Ok(None);
        }
        Ok(Some(Child {
            id: String::from_str(alloc, id)?,
            module: String::from_str(alloc, module)?,
            restart,
            kind,
        }))
    }
}

fn restart_in(term: &Term) -> Option<Restart>
    ensures { result ≡ restart_in (value_of term.now) }
{
    restart_of(word_in(term)?)
}

fn kind_in(term: &Term) -> Option<ChildKind>
    ensures { result ≡ kind_in (value_of term.now) }
{
    kind_of(word_in(term)?)
}

// The children, if each is one.
pub(crate) fn children_in(alloc: Global, terms: &[Term]) -> Result<Option<Vec<Child>>, AllocError>
    ensures { IfOk result (λ children.
        option_map (λ v. map child_of v.items) children ≡ children_in (members_of terms.now)) }
{
    let mut children = Vec::with_capacity(alloc, terms.len())?;
    for term in terms {
        let Some(child) = Child::read(alloc, term)? else {
            return Ok(None);
        };
        children.push(child)?;
    }
    Ok(Some(children))
}
