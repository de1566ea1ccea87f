//! What a term says of an application, before it is known whether a module stands twice and its version is one.
ghost use Rattle.std.specs.Prelude.{◌≡◌, IfOk, MatchOption, map, string_bytes};
ghost use Rattle.std.specs.Option.{option_map};
ghost use Rattle.erl_term.specs.Value.{value_of};
ghost use Rattle.rel_files.specs.Name.{AreDistinct, IsFirstTwice};
ghost use Rattle.rel_files.specs.Sketch.{names_in};
ghost use Rattle.rel_files.specs.AppParts.{entries_in, vsn_in, modules_at, names_none, top_in, top_at, module_in, contents, contents_in};
ghost use Rattle.rel_files.specs.AppInMemory.{contents_of};

use crate::app_pairs::{pairs_in, value_at};
use crate::duplicates::first_name_twice;
use crate::parts::{is_word, list_in, pair_in, triple_in};
use crate::text::{name_in, names_in, version_or_empty};
use erl_term::Term;
use std::alloc::{AllocError, Global};

// The name of an application, and its keys with their values.
#[derive(Drop)]
struct Entries<'a> {
    name: &'a str,
    pairs: Vec<(&'a Term, &'a Term)>,
}

// What the keys that count say. The version is the empty text where it is none.
#[derive(Drop)]
pub(crate) struct Contents {
    pub(crate) name: String,
    pub(crate) vsn: String,
    pub(crate) modules: Vec<String>,
    pub(crate) top: Option<String>,
}

impl<'a> Entries<'a> {
    ghost use Rattle.rel_files.specs.AppParts.{value_at};

    // The value of a key. Of equal keys the first counts.
    fn value_at(&self, key: &str) -> Option<&'a Term>
        ensures { option_map (λ v. value_of v.now) result
            ≡ value_at key.now
            (map (λ p. (value_of p.0.now, value_of p.1.now)) self.now.pairs.items) }
    {
        value_at(self.pairs.as_slice(), key)
    }

    // What the version's key has.
    fn vsn(&self, alloc: Global) -> Result<Option<String>, AllocError>
        ensures { IfOk result (λ vsn. option_map string_bytes vsn
            ≡ vsn_in (map (λ p. (value_of p.0.now, value_of p.1.now)) self.now.pairs.items)) }
    {
        match self.value_at("vsn") {
            Some(term) => version_or_empty(alloc, term),
            None => Ok(None),
        }
    }
}

// `{application, App, [{Key, Value}]}`.
fn entries_in(alloc: Global, term: &Term) -> Result<Option<Entries<'_>>, AllocError>
    ensures { IfOk result (λ entries. option_map (λ e. record {
      name = e.name.now;
      pairs = map (λ p. (value_of p.0.now, value_of p.1.now)) e.pairs.items;
    }) entries ≡ entries_in (value_of term.now)) }
{
    let Some((word, name, items)) = triple_in(term) else {
        return Ok(None);
    };
    if !is_word(word, "application") {
        return Ok(None);
    }
    let Some(name) = name_in(name) else {
        return Ok(None);
    };
    let Some(items) = list_in(items) else {
        return Ok(None);
    };
    match pairs_in(alloc, items)? {
        Some(pairs) => Ok(Some(Entries { name, pairs })),
        None => Ok(None),
    }
}

// The modules of the key's value; none where the key is missing.
fn modules_at(alloc: Global, term: Option<&Term>) -> Result<Option<Vec<String>>, AllocError>
    ensures { IfOk result (λ modules. option_map (λ v. map string_bytes v.items) modules
        ≡ modules_at (option_map (λ v. value_of v.now) term.entry)) }
{
    match term {
        Some(term) => names_in(alloc, term),
        None => Ok(Some(Vec::new(alloc))),
    }
}

// `Module` of `{Module, Args}`.
fn module_in(term: &Term) -> Option<&str>
    ensures { option_map (λ name. name.now) result ≡ module_in (value_of term.now) }
{
    let (module, _) = pair_in(term)?;
    name_in(module)
}

// Whether it is `[]`.
fn names_none(term: &Term) -> bool
    ensures { result ≡ names_none (value_of term.now) }
{
    match term {
        Term::List(items) => items.split_first().is_none(),
        _ => false,
    }
}

// `{Module, Args}`, or `[]`, which names none.
fn top_in(alloc: Global, term: &Term) -> Result<Option<Option<String>>, AllocError>
    ensures { IfOk result (λ top.
        option_map (λ t. option_map string_bytes t) top ≡ top_in (value_of term.now)) }
{
    if names_none(term) {
        return Ok(Some(None));
    }
    match module_in(term) {
        Some(module) => Ok(Some(Some(String::from_str(alloc, module)?))),
        None => Ok(None),
    }
}

// The module of the key's value; none where the key is missing.
fn top_at(alloc: Global, term: Option<&Term>) -> Result<Option<Option<String>>, AllocError>
    ensures { IfOk result (λ top. option_map (λ t. option_map string_bytes t) top
        ≡ top_at (option_map (λ v. value_of v.now) term.entry)) }
{
    match term {
        Some(term) => top_in(alloc, term),
        None => Ok(Some(None)),
    }
}

impl Contents {
    // Nothing for a term of another shape.
    pub(crate) fn read(alloc: Global, term: &Term) -> Result<Option<Contents>, AllocError>
        ensures { IfOk result (λ c. option_map contents_of c ≡ contents_in (value_of term.now)) }
    {
        match entries_in(alloc, term)? {
            Some(entries) => Contents::of_entries(alloc, &entries),
            None => Ok(None),
        }
    }

    fn of_entries(alloc: Global, entries: &Entries<'_>) -> Result<Option<Contents>, AllocError>
        ensures { IfOk result (λ c. option_map contents_of c ≡ contents (record {
          name = entries.now.name.now;
          pairs = map (λ p. (value_of p.0.now, value_of p.1.now)) entries.now.pairs.items;
        })) }
    {
        let Some(vsn) = entries.vsn(alloc)? else {
            return Ok(None);
        };
        let Some(modules) = modules_at(alloc, entries.value_at("modules"))? else {
            return Ok(None);
        };
        let Some(top) = top_at(alloc, entries.value_at("mod"))? else {
            return Ok(None);
        };
        Ok(Some(Contents {
            name: String::from_str(alloc, entries.name)?,
            vsn,
            modules,
            top,
        }))
    }

    // The first module that stands a second time.
    pub(crate) fn module_twice(&self, alloc: Global) -> Result<Option<&str>, AllocError>
        ensures { IfOk result (λ twice. let modules = (contents_of self.now).modules in
            MatchOption twice (AreDistinct modules) (λ n. IsFirstTwice modules n.now)) }
    {
        let texts = texts_of(alloc, self.modules.as_slice())?;
        first_name_twice(alloc, texts.as_slice())
    }
}

fn texts_of<'a>(alloc: Global, names: &'a [String]) -> Result<Vec<&'a str>, AllocError>
    ensures { IfOk result (λ texts.
        map (λ t. t.now) texts.items ≡ map string_bytes names.now) }
{
    let mut texts = Vec::with_capacity(alloc, names.len())?;
    for name in names {
        texts.push(name.as_str())?;
    }
    Ok(texts)
}
