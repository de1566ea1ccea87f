//! The modules that are loaded.
ghost use Rattle.std.specs.Prelude.{◌≡◌, ℕ, List, [], IfOk, OnErr, OnOk, Some, cond, is_some, map};
ghost use Rattle.std.specs.Str.{bytes_eq};
ghost use Rattle.std.specs.Option.{option_map, option_or};
ghost use Rattle.library.specs.InMemory.{library_of, shared_of};
ghost use Rattle.std.specs.BTreeMap.{insert_entry};
ghost use Rattle.std.specs.Cmp.Lexicographic.{slice_cmp};
ghost use Rattle.std.specs.Map.Iter.{deref_pair};
ghost use Rattle.std.specs.Ordering.{nat_cmp};
ghost use Rattle.loaded_modules.specs.Loaded.{Module, modules_of, library_modules, modules_in, modules_in_map, module_at, module_in, tables_of, listed_in, listed_in_map, listed_modules, loaded_behind, module_named, named_modules, name_and_version, with_loaded, without_module};

use library::{App, Library, Table};
use std::alloc::{AllocError, Global};
use std::collections::BTreeMap;
use std::rc::Rc;

// A module that is loaded, as its library has it.
#[derive(Clone, Drop)]
struct LoadedModule {
    library: Rc<Library>,
    // Where it stands among the library's modules.
    place: usize,
}

/// The modules that are loaded, by their names. Their tables are those of their libraries, and aren't copied.
#[derive(Drop)]
pub struct Loaded {
    modules: BTreeMap<String, LoadedModule>,
}

impl Loaded {
    /// Nothing is loaded.
    pub fn new(alloc: Global) -> Loaded
        ensures { listed_in result ≡ [] }
    {
        Loaded {
            modules: BTreeMap::new(alloc),
        }
    }

    /// All modules of these libraries. Of two modules of one name the later one is loaded.
    pub fn of(alloc: Global, libraries: &[Rc<Library>]) -> Result<Loaded, AllocError>
        ensures loaded { IfOk result (λ loaded. (name : List ℕ) →
            modules_in loaded name ≡ modules_of (map shared_of libraries.now) name) }
        ensures listed { IfOk result (λ loaded.
            listed_in loaded ≡ listed_modules (map shared_of libraries.now)) }
    {
        let mut modules = BTreeMap::new(alloc);
        for library in libraries {
            load_library(&mut modules, alloc, library)?;
        }
        Ok(Loaded { modules })
    }

    /// The same modules again: they are listed as these are, and found under the same names.
    pub fn copy(&self) -> Result<Loaded, AllocError>
        ensures { IfOk result (λ copy. listed_in copy ≡ listed_in self.now) }
    {
        Ok(Loaded {
            modules: self.modules.clone()?,
        })
    }

    /// The module of this name of the library is loaded, in place of what had its name. False, and nothing changes, where the
    /// library has none. Nothing changes either where no memory was left.
    pub fn load(
        &mut self,
        alloc: Global,
        library: &Rc<Library>,
        name: &str,
    ) -> Result<bool, AllocError>
        ensures there { IfOk result (λ there.
            there ≡ is_some (library_modules (shared_of library.now) name.now)) }
        ensures loaded { OnOk result (listed_in self.new ≡ with_loaded
            (library_modules (shared_of library.now) name.now) name.now (listed_in self.old)) }
        ensures kept { OnErr result (listed_in self.new ≡ listed_in self.old) }
    {
        let Some(place) = place_in(library.as_ref(), name) else {
            return Ok(false);
        };
        load_module(&mut self.modules, alloc, library, place, name)?;
        Ok(true)
    }

    /// The same with the module of this name that is loaded in `other`.
    pub fn load_from(
        &mut self,
        alloc: Global,
        other: &Loaded,
        name: &str,
    ) -> Result<bool, AllocError>
        ensures there { IfOk result (λ there.
            there ≡ is_some (module_named name.now (listed_in other.now))) }
        ensures loaded { OnOk result (listed_in self.new ≡ with_loaded
            (module_named name.now (listed_in other.now)) name.now (listed_in self.old)) }
        ensures kept { OnErr result (listed_in self.new ≡ listed_in self.old) }
    {
        let Some(LoadedModule { library, place }) = other.modules.get(name) else {
            return Ok(false);
        };
        load_module(&mut self.modules, alloc, library, *place, name)?;
        Ok(true)
    }

    /// The module isn't loaded any more. It takes no memory.
    pub fn remove(&mut self, name: &str)
        ensures { listed_in self.new ≡ without_module name.now (listed_in self.old) }
    {
        let _removed = self.modules.remove(name);
    }

    /// The version of the module, where it is loaded.
    pub fn vsn(&self, name: &str) -> Option<&str>
        ensures { option_map (λ v. v.now) result
            ≡ option_map (λ (m : Module). m.vsn) (modules_in self.now name.now) }
    {
        Some(self.modules.get(name)?.vsn())
    }

    /// The loaded modules with their versions, by the bytes of their names.
    pub fn versions<'a>(&'a self, alloc: Global) -> Result<Vec<(&'a str, &'a str)>, AllocError>
        ensures { IfOk result (λ vs.
            map deref_pair vs.items ≡ map name_and_version (listed_in self.now)) }
    {
        let mut versions = Vec::new(alloc);
        for (name, module) in &self.modules {
            versions.push((name.as_str(), module.vsn()))?;
        }
        Ok(versions)
    }

    /// The table of the module, where it is loaded and has one.
    pub fn table(&self, name: &str) -> Option<&Table>
        ensures { option_map (λ t. t.now) result ≡ tables_of (modules_in self.now) name.now }
    {
        self.modules.get(name)?.table()
    }
}

impl LoadedModule {
    fn vsn(&self) -> &str
        ensures { result.now ≡ (module_in self.now).vsn }
    {
        match self.table() {
            Some(table) => table.vsn(),
            None => self.library.app.vsn.as_str(),
        }
    }

    fn table(&self) -> Option<&Table>
        ensures { option_map (λ t. t.now) result ≡ (module_in self.now).table }
    {
        match self.library.tables.get(self.place) {
            Some(Some(file)) => Some(&file.table),
            Some(None) | None => None,
        }
    }
}

// The modules of a library, in place of those of their names.
fn load_library(
    modules: &mut BTreeMap<String, LoadedModule>,
    alloc: Global,
    library: &Rc<Library>,
) -> Result<(), AllocError>
    ensures loaded { OnOk result ((name : List ℕ) → modules_in_map modules.new name ≡ option_or
        (library_modules (shared_of library.now) name) (modules_in_map modules.old name)) }
    ensures listed { OnOk result (let l = shared_of library.now in listed_in_map modules.new
        ≡ loaded_behind (listed_in_map modules.old) (named_modules l.app l.app.modules l.tables)) }
{
    let Library {
        app: App { modules: names, .. },
        tables,
    } = library.as_ref();
    for place in 0..names.len().min(tables.len()) {
        load_module(modules, alloc, library, place, names[place].as_str())?;
    }
    Ok(())
}

// The module that stands at this place of the library, under this name.
fn load_module(
    modules: &mut BTreeMap<String, LoadedModule>,
    alloc: Global,
    library: &Rc<Library>,
    place: usize,
    name: &str,
) -> Result<(), AllocError>
    ensures loaded { OnOk result ((q : List ℕ) → modules_in_map modules.new q
        ≡ cond (bytes_eq name.now q) (Some (module_at (shared_of library.now) place))
        (modules_in_map modules.old q)) }
    ensures listed { OnOk result (listed_in_map modules.new
        ≡ insert_entry (slice_cmp nat_cmp) (listed_in_map modules.old) name.now
        (module_at (shared_of library.now) place)) }
    ensures kept { OnErr result (listed_in_map modules.new ≡ listed_in_map modules.old) }
{
    let library = library.clone()?;
    modules.insert(
        String::from_str(alloc, name)?,
        LoadedModule { library, place },
    )?;
    Ok(())
}

// Where the module of this name stands among those of the library: of several the last.
fn place_in(library: &Library, name: &str) -> Option<usize>
    ensures { option_map (module_at (library_of library.now)) result
        ≡ library_modules (library_of library.now) name.now }
{
    let Library {
        app: App { modules: names, .. },
        tables,
    } = library;
    let mut found = None;
    for place in 0..names.len().min(tables.len()) {
        if names[place].as_str() == name {
            found = Some(place);
        }
    }
    found
}
