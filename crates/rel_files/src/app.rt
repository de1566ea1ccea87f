//! An application, as its `.app` file has it.
ghost use Rattle.std.specs.Prelude.{◌≡◌};
ghost use Rattle.rel_files.specs.AppFile.{has_few_modules};
ghost use Rattle.rel_files.specs.AppInMemory.{specification_of};

use erl_term::Term;

// How many modules an application has at most.
const MOST_MODULES: usize = 1_024;

/// An application: what a `.app` file says.
pub struct App {
    pub name: String,
    pub vsn: String,
    /// The modules that belong to it, in the order of the file. None where the file lists none.
    pub modules: Vec<String>,
    /// The module that starts it, where the file names one.
    pub top: Option<String>,
    /// The whole term of the file.
    pub whole: Term,
}

// Let go by one call: a derived drop would stand field by field at each exit of a caller.
impl Drop for App {
    fn drop(self) {
        let App {
            name: _name,
            vsn: _vsn,
            modules: _modules,
            top: _top,
            whole: _whole,
        } = self;
    }
}

impl App {
    /// Whether it has no more modules than an application may have.
    pub fn has_few_modules(&self) -> bool
        ensures { result ≡ has_few_modules (specification_of self.now) }
    {
        self.modules.len() <= MOST_MODULES
    }

    /// Its name, its version and its modules.
    pub fn into_names(self) -> (String, String, Vec<String>)
        ensures { result ≡ (self.name, self.vsn, self.modules) }
    {
        let App {
            name,
            vsn,
            modules,
            top: _top,
            whole: _whole,
        } = self;
        (name, vsn, modules)
    }
}
