//! What the making of a relup needs to know of releases, and the way between two of them.
ghost use Rattle.std.specs.Prelude.{◌≡◌};
ghost use Rattle.std.specs.Option.{option_map};
ghost use Rattle.relup_row.specs.Release.{relup_app_of, relup_release_of, way_of, way_between, app_named, owner};

use crate::modules::ModuleNames;
use appup_file::Appup;
use rel_files::StartType;
use relup_instruction::Direction;

/// An application of a release.
pub struct RelupApp {
    pub name: String,
    pub vsn: String,
    /// How the release starts it.
    pub start: StartType,
    pub modules: ModuleNames,
    /// Its appup file, where it has one. That of a lower release isn't asked.
    pub appup: Option<Appup>,
}

// Let go by one call: a derived drop would stand field by field at each exit of a caller.
impl Drop for RelupApp {
    fn drop(self) {
        let RelupApp {
            name: _name,
            vsn: _vsn,
            start: _start,
            modules: _modules,
            appup: _appup,
        } = self;
    }
}

/// A release: its `.rel` file, with the `.app` and appup files of its applications.
pub struct RelupRelease {
    pub vsn: String,
    /// The version of the runtime system that the release is for.
    pub erts: String,
    /// In the order of the `.rel` file.
    pub apps: Vec<RelupApp>,
}

// Let go by one call: a derived drop would stand field by field at each exit of a caller.
impl Drop for RelupRelease {
    fn drop(self) {
        let RelupRelease {
            vsn: _vsn,
            erts: _erts,
            apps: _apps,
        } = self;
    }
}

/// From the release that is left to the target.
#[derive(Clone, Copy)]
pub struct Way<'a> {
    pub direction: Direction,
    pub left: &'a RelupRelease,
    pub target: &'a RelupRelease,
}

impl<'a> Way<'a> {
    /// Up from another release, or down to it.
    pub fn between(direction: Direction, new: &'a RelupRelease, other: &'a RelupRelease) -> Way<'a>
        ensures { way_of result
            ≡ way_between direction (relup_release_of new.now) (relup_release_of other.now) }
    {
        match direction {
            Direction::Up => Way {
                direction,
                left: other,
                target: new,
            },
            Direction::Down => Way {
                direction,
                left: new,
                target: other,
            },
        }
    }
}

impl RelupRelease {
    /// The application of a name.
    pub fn app_named(&self, name: &str) -> Option<&RelupApp>
        ensures { option_map (λ a. relup_app_of a.now) result
            ≡ app_named name.now (relup_release_of self.now) }
    {
        for app in &self.apps {
            if app.name.as_str() == name {
                return Some(app);
            }
        }
        None
    }

    /// The first application that has a module.
    pub fn owner(&self, name: &str) -> Option<&RelupApp>
        ensures { option_map (λ a. relup_app_of a.now) result
            ≡ owner name.now (relup_release_of self.now) }
    {
        for app in &self.apps {
            if app.modules.has(name) {
                return Some(app);
            }
        }
        None
    }
}
