//! What `systools` refuses of an instruction.

use thiserror::Error;

/// A refusal, with the module, application or library that it is about. It is shown with what to do.
#[derive(Clone, Copy, Debug, Error)]
pub enum Refusal<'a> {
    /// The processes of this module are given no time (bad_timeout).
    #[error("{0} is given a timeout of 0: write default, infinity or milliseconds above 0")]
    NoTime(&'a str),
    /// This module is loaded, and no `load_object_code` has it (no_object_code).
    #[error("{0} is loaded and not fetched: add a load_object_code that has it")]
    NotFetched(&'a str),
    /// This module is suspended, and no `resume` has it (suspended_not_resumed).
    #[error("{0} is suspended and not resumed: add a resume that has it")]
    NotResumed(&'a str),
    /// This module is resumed, and no `suspend` has it (resumed_not_suspended).
    #[error("{0} is resumed and not suspended: add a suspend that has it")]
    NotSuspended(&'a str),
    /// This module is started, and no `stop` has it (start_not_stop).
    #[error("{0} is started and not stopped: add a stop that has it")]
    NotStopped(&'a str),
    /// This module is stopped, and no `start` has it (stop_not_start).
    #[error("{0} is stopped and not started: add a start that has it")]
    NotStarted(&'a str),
    /// This application is removed, and the target has it (removed_application_present).
    #[error("application {0} is removed and in the new release too: leave one of both out")]
    NotRemoved(&'a str),
    /// Another instruction has this module already (muldef_module).
    #[error("{0} has an instruction already: leave one of them out")]
    NotAlone(&'a str),
    /// This module stands in DepMods, and has no instruction of its own (undef_module).
    #[error("{0} has no instruction of its own: add one, or take it out of DepMods")]
    NotChanged(&'a str),
    /// This library is fetched in another version before (conflicting_versions).
    #[error("library {0} is fetched in another version before: fetch it in one")]
    NotOneVersion(&'a str),
    /// This library is fetched in another version than the target's, of which modules are fetched too (conflicting_versions).
    #[error("library {0} is fetched in the target's version too: fetch it in that one")]
    NotOfTarget(&'a str),
}

/// A refusal, and the instruction that it is about.
#[derive(Clone, Copy, Debug)]
pub struct Finding<'a> {
    /// The application whose appup has the instruction.
    pub app: &'a str,
    /// The instruction's place in its entry, from 1.
    pub number: usize,
    pub refusal: Refusal<'a>,
}
