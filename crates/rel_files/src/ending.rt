//! What follows the version of an application.
ghost use Rattle.std.specs.Prelude.{◌≡◌, IfOk};
ghost use Rattle.std.specs.Option.{option_map};
ghost use Rattle.erl_term.specs.Value.{members_of};
ghost use Rattle.rel_files.specs.Sketch.{end_in, included_in, start_of};

use crate::StartType;
use crate::text::names_of;
use erl_term::Term;
use std::alloc::{AllocError, Global};

// How an application is started, and the applications that are included in it.
#[derive(Drop)]
pub(crate) struct Ending {
    pub(crate) start: StartType,
    pub(crate) included: Option<Vec<String>>,
}

impl Ending {
    ghost use Rattle.rel_files.specs.Sketched.{end_of};

    // `Type`, `IncApps`, both in this order, or nothing.
    pub(crate) fn read(alloc: Global, ending: &[Term]) -> Result<Option<Ending>, AllocError>
        ensures { IfOk result (λ e. option_map end_of e ≡ end_in (members_of ending.now)) }
    {
        let Some((first, rest)) = ending.split_first() else {
            return Ending::with_included(alloc, StartType::Permanent, ending);
        };
        match first {
            Term::Atom(word) => match start_of(word.as_str()) {
                Some(start) => Ending::with_included(alloc, start, rest),
                None => Ok(None),
            },
            _ => Ending::with_included(alloc, StartType::Permanent, ending),
        }
    }

    // `IncApps`, or nothing.
    fn with_included(
        alloc: Global,
        start: StartType,
        rest: &[Term],
    ) -> Result<Option<Ending>, AllocError>
        ensures { IfOk result (λ e. option_map end_of e ≡ included_in start (members_of rest.now)) }
    {
        let Some((first, rest)) = rest.split_first() else {
            return Ok(Some(Ending {
                start,
                included: None,
            }));
        };
        if rest.split_first().is_some() {
            return Ok(None);
        }
        let Term::List(names) = first else {
            return Ok(None);
        };
        match names_of(alloc, names)? {
            Some(names) => Ok(Some(Ending {
                start,
                included: Some(names),
            })),
            None => Ok(None),
        }
    }
}

/// The start type of a word, as a release or an appup has it.
pub fn start_of(word: &str) -> Option<StartType>
    ensures { result ≡ start_of word.now }
{
    match word {
        "permanent" => Some(StartType::Permanent),
        "transient" => Some(StartType::Transient),
        "temporary" => Some(StartType::Temporary),
        "load" => Some(StartType::Load),
        "none" => Some(StartType::Unloaded),
        _ => None,
    }
}
