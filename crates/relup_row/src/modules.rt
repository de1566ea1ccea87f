//! The modules of an application.
ghost use Rattle.std.specs.Prelude.{◌≡◌, IfOk, map, string_bytes};
ghost use Rattle.relup_block.specs.Order.{is_among};

use std::alloc::{AllocError, Global};
use std::collections::BTreeSet;
use std::marker::Model;

/// The names of an application's modules in the order of its `.app` file, where contracts see their texts. A name is looked
/// up in log n comparisons of n names.
pub struct ModuleNames {
    names: Vec<String>,
    sorted: BTreeSet<String>,
}

// Let go by one call: a derived drop would stand field by field at each exit of a caller.
impl Drop for ModuleNames {
    fn drop(self) {
        let ModuleNames {
            names: _names,
            sorted: _sorted,
        } = self;
    }
}

impl Model for ModuleNames {
    ghost use Rattle.std.specs.Prelude.{ℕ, List, map, string_bytes};
    ghost use Rattle.relup_row.specs.Modules.{IsSetOf};

    ghost Value = { List (List ℕ) };

    ghost view = { λ m. map string_bytes m.names.items };

    ghost invariant = { λ m. IsSetOf m.sorted (map string_bytes m.names.items) };
}

impl ModuleNames {
    /// A list of these names, to be searched. For n of them it takes n log n comparisons.
    pub fn new(alloc: Global, names: Vec<String>) -> Result<ModuleNames, AllocError>
        ensures { IfOk result (λ modules. modules ≡ map string_bytes names.items) }
    {
        let mut sorted = BTreeSet::new(alloc);
        for name in &names {
            sorted.insert(name.clone()?)?;
        }
        Ok(ModuleNames { names, sorted })
    }

    /// In the order of the `.app` file.
    pub fn as_slice(&self) -> &[String]
        ensures { map string_bytes result.now ≡ self.now }
    {
        self.names.as_slice()
    }

    /// Whether a module is among them.
    pub fn has(&self, name: &str) -> bool
        ensures { result ≡ is_among name.now self.now }
    {
        self.sorted.contains(name)
    }
}
