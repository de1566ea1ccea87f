//! Why an application isn't started or stopped, or a child isn't ended.
ghost use Rattle.std.specs.Prelude.{◌≡◌, Option};
ghost use Rattle.app_members.specs.InMemory.{FaultIs};
ghost use Rattle.app_members.specs.Walk.{StartFault};
ghost use Rattle.sup_tree.specs.Restarts.{RestartFaultIs};
ghost use Rattle.sup_tree.specs.declared.error.StartError.TheVariants.{NoMemory};

use app_members::MembersError;
use std::alloc::{AllocError, Global};
use thiserror::Error;

/// Why an application isn't started. Of several reasons the one that stands first here is reported; nothing has started then.
#[derive(Clone, Copy, Debug, Error)]
pub enum StartError<'a> {
    /// The application is started already.
    #[error("AlreadyStarted")]
    AlreadyStarted,
    /// This module, of a child, has no table or one of the other kind; or it is a top and has the table of a worker. Of this and
    /// Unsupported the one that comes first on the way through the children is reported.
    #[error("NoTable")]
    NoTable(&'a str),
    /// Supervisors stand in each other deeper than 8.
    #[error("Unsupported")]
    Unsupported,
    /// A process can begin in fewer slots than it needs.
    #[error("NoSlot")]
    NoSlot,
    /// There is no memory for all members. It may come in place of any other but AlreadyStarted.
    #[error("NoMemory")]
    NoMemory,
}

impl<'a> From<AllocError> for StartError<'a> {
    ghost from_gives = { λ _ e. e ≡ NoMemory };

    fn from(_: AllocError) -> StartError<'a> {
        StartError::NoMemory
    }
}

impl<'a> From<MembersError<'a>> for StartError<'a> {
    ghost use Rattle.sup_tree.specs.Starts.{members_cause};

    ghost from_gives = { λ e s. s ≡ members_cause e };

    fn from(error: MembersError<'a>) -> StartError<'a> {
        match error {
            MembersError::NoTable(module) => StartError::NoTable(module),
            MembersError::Unsupported => StartError::Unsupported,
            MembersError::NoMemory => StartError::NoMemory,
        }
    }
}

/// The application isn't started.
#[derive(Clone, Copy, Debug, Error)]
#[error("NoSuchApp")]
pub struct NoSuchApp;

/// Why a child doesn't begin again. Of several reasons the one that stands first here is reported.
#[derive(Debug, Drop, Error)]
pub enum RestartError {
    /// Not exactly one supervisor of its module is started.
    #[error("NoSuper")]
    NoSuper,
    /// This module of a child has no table, or one of the other kind. Of this and Unsupported the one that comes first on
    /// the way through the children is reported.
    #[error("NoTable {0}")]
    NoTable(String),
    /// Supervisors stand in each other deeper than 8.
    #[error("Unsupported")]
    Unsupported,
    /// A process can begin in fewer slots than it needs.
    #[error("NoSlot")]
    NoSlot,
    /// There is no memory for all members. It may come in place of any other but NoSuper.
    #[error("NoMemory")]
    NoMemory,
}

impl From<AllocError> for RestartError {
    ghost use Rattle.sup_tree.specs.declared.error.RestartError.TheVariants as restart;

    ghost from_gives = { λ _ e. e ≡ restart.NoMemory };

    fn from(_: AllocError) -> RestartError {
        RestartError::NoMemory
    }
}

/// What is reported of a child whose members have this fault.
pub(crate) fn restart_error(alloc: Global, error: MembersError<'_>) -> RestartError
    ensures { (f : Option StartFault) → FaultIs error.entry f → RestartFaultIs result f }
{
    match error {
        MembersError::NoTable(module) => match String::from_str(alloc, module) {
            Ok(name) => RestartError::NoTable(name),
            Err(_) => RestartError::NoMemory,
        },
        MembersError::Unsupported => RestartError::Unsupported,
        MembersError::NoMemory => RestartError::NoMemory,
    }
}

/// Not exactly one supervisor of the module is started.
#[derive(Clone, Copy, Debug, Error)]
#[error("NoSuper")]
pub struct NoSuper;
