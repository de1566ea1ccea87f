//! Why an instruction fails, and how far it came.
ghost use Rattle.std.specs.Prelude.{◌≡◌, IfOk, string_bytes};
ghost use Rattle.script_progress.specs.declared.cause.Cause.TheVariants.{NoMemory};
ghost use Rattle.script_progress.specs.Steps.{on_no_child};

use erl_term::{Term, print};
use std::alloc::{AllocError, Global};

/// Why an instruction fails.
#[derive(Drop)]
pub enum Cause {
    /// No release has the library.
    NoLibrary,
    /// The library has no such module.
    NoModule,
    /// No instruction fetched the module before.
    NotFetched,
    /// A process runs the module, and no table of a worker was fetched; or for a child that begins no table is loaded, or one of
    /// the other kind, or a top has the table of a worker.
    NoTable,
    /// A process of the module is held and up, and no row of its table says how its code is changed; or one is held, and there is
    /// no version to change it from or to.
    NoChange,
    /// The script itself raised an error, with this term.
    Raised(Term),
    /// A process that is up runs the module, or a supervisor of a started application.
    InUse,
    /// The release has no such application.
    NoApp,
    /// There are too few slots for the processes of an application, or of a child that begins again.
    NoSlot,
    /// The instruction isn't supported, or an application, or a child that begins again, starts in a way that isn't.
    Unsupported,
    /// Not exactly one supervisor of the module is started.
    NoSuper,
    /// No memory was left, where the instruction asks for some.
    NoMemory,
}

/// An instruction that failed. It was done for so many of its modules, and for the next one in the slots below this one. Where a
/// child didn't begin again, `modules` is 1 if what stood for it was given up.
#[derive(Drop)]
pub struct Failure {
    pub cause: Cause,
    pub modules: usize,
    pub slot: usize,
}

/// An instruction that failed before anything of it was done.
pub fn failure_at_start(cause: Cause) -> Failure
    ensures { result ≡ (record { cause = cause; modules = 0; slot = 0 }) }
{
    Failure {
        cause,
        modules: 0,
        slot: 0,
    }
}

/// What is reported of an instruction that is on no child: it left none as it is, or it fails as it did.
pub fn on_no_child(done: Result<(), Failure>) -> Result<bool, Failure>
    ensures { result ≡ on_no_child done }
{
    match done {
        Ok(()) => Ok(false),
        Err(failure) => Err(failure),
    }
}

impl Cause {
    ghost use Rattle.script_progress.specs.Fault.{cause_name, cause_text};
    ghost use Rattle.script_progress.specs.InMemory.{cause_of};

    /// The text of a cause: its name, and after that of an error its term.
    pub fn text(&self, alloc: Global) -> Result<String, AllocError>
        ensures { IfOk result (λ s. string_bytes s ≡ cause_text (cause_of self.now)) }
    {
        let mut text = String::from_str(alloc, self.name())?;
        if let Cause::Raised(term) = self {
            text.push(' ')?;
            text.push_str(print(alloc, term)?.as_str())?;
        }
        Ok(text)
    }

    fn name(&self) -> &'static str
        ensures { result.now ≡ cause_name (cause_of self.now) }
    {
        match self {
            Cause::NoLibrary => "NoLibrary",
            Cause::NoModule => "NoModule",
            Cause::NotFetched => "NotFetched",
            Cause::NoTable => "NoTable",
            Cause::NoChange => "NoChange",
            Cause::Raised(_) => "Raised",
            Cause::InUse => "InUse",
            Cause::NoApp => "NoApp",
            Cause::NoSlot => "NoSlot",
            Cause::Unsupported => "Unsupported",
            Cause::NoSuper => "NoSuper",
            Cause::NoMemory => "NoMemory",
        }
    }
}

impl From<AllocError> for Cause {
    ghost from_gives = { λ _ c. c ≡ NoMemory };

    fn from(_: AllocError) -> Cause {
        Cause::NoMemory
    }
}
