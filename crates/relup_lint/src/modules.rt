//! The applications of a target.
ghost use Rattle.std.specs.Prelude.{◌≡◌, IfOk, map, string_bytes};
ghost use Rattle.relup_lint.specs.Script.{all_targets, modules_of, has_app};

use crate::TargetApp;
use crate::names::first_by_name;
use std::alloc::{AllocError, Global};
use std::collections::BTreeMap;
use std::marker::Model;

/// The applications of a target, each found by its name.
pub(crate) struct Modules<'s, 'a> {
    target: &'s [TargetApp<'a>],
    by_name: BTreeMap<&'a str, &'a [String]>,
}

// Let go by one call: a derived drop would stand field by field at each exit of a caller.
impl Drop for Modules<'_, '_> {
    fn drop(self) {
        let Modules {
            target: _target,
            by_name: _by_name,
        } = self;
    }
}

impl<'s, 'a> Model for Modules<'s, 'a> {
    ghost use Rattle.std.specs.Prelude.{List};
    ghost use Rattle.relup_lint.specs.Script.{TargetForm, all_targets};
    ghost use Rattle.relup_lint.specs.Found.{IsFoundByName};

    ghost Value = { List TargetForm };

    ghost view = { λ m. all_targets m.target.now };

    ghost invariant = { λ m. IsFoundByName m.by_name (all_targets m.target.now) };
}

impl<'s, 'a> Modules<'s, 'a> {
    /// A table of the modules of this target, to be searched by name.
    pub(crate) fn new(
        alloc: Global,
        target: &'s [TargetApp<'a>],
    ) -> Result<Modules<'s, 'a>, AllocError>
        ensures { IfOk result (λ modules. modules ≡ all_targets target.now) }
    {
        let mut rows = Vec::with_capacity(alloc, target.len())?;
        for app in target {
            rows.push((app.name, app.modules))?;
        }
        let by_name = first_by_name(alloc, &rows)?;
        Ok(Modules { target, by_name })
    }

    /// The modules of an application, none where it isn't there.
    pub(crate) fn of(&self, app: &'a str) -> &'a [String]
        ensures { map string_bytes result.now ≡ modules_of app.now self.now }
    {
        match self.by_name.get(&app) {
            Some(modules) => *modules,
            None => &[],
        }
    }

    /// Whether an application is there.
    pub(crate) fn has(&self, app: &'a str) -> bool
        ensures { result ≡ has_app app.now self.now }
    {
        self.by_name.contains_key(&app)
    }
}
