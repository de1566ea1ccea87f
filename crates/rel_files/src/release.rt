//! A release, as its `.rel` file has it.
ghost use Rattle.std.specs.Prelude.{◌≡◌};

/// How an application of a release is started.
#[derive(Clone, Copy, Debug)]
pub enum StartType {
    /// Loaded and started; the node ends with it.
    Permanent,
    /// Loaded and started; the node ends with it if it ends abnormally.
    Transient,
    /// Loaded and started.
    Temporary,
    /// Loaded only.
    Load,
    /// `none`: neither loaded nor started, though its modules are.
    Unloaded,
}

/// An application of a release.
pub struct RelApp {
    pub name: String,
    pub vsn: String,
    pub start: StartType,
    /// The applications that are included in it, where the file says so. They have no effect.
    pub included: Option<Vec<String>>,
}

// Let go by one call: a derived drop would stand field by field at each exit of a caller.
impl Drop for RelApp {
    fn drop(self) {
        let RelApp {
            name: _name,
            vsn: _vsn,
            start: _start,
            included: _included,
        } = self;
    }
}

/// A release: what a `.rel` file says.
pub struct Rel {
    pub name: String,
    pub vsn: String,
    /// The version of the runtime system that the release is for.
    pub erts: String,
    /// In the order of the file, which is the order in which they start.
    pub apps: Vec<RelApp>,
}

// Let go by one call: a derived drop would stand field by field at each exit of a caller.
impl Drop for Rel {
    fn drop(self) {
        let Rel {
            name: _name,
            vsn: _vsn,
            erts: _erts,
            apps: _apps,
        } = self;
    }
}

impl Rel {
    /// The version of the release, and that of its runtime system.
    pub fn into_versions(self) -> (String, String)
        ensures { result ≡ (self.vsn, self.erts) }
    {
        let Rel {
            name: _name,
            vsn,
            erts,
            apps: _apps,
        } = self;
        (vsn, erts)
    }
}
