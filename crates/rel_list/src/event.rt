//! What happens to a list of releases.
//!
//! An installation with a restart makes a release a one-shot: the next boot starts it, and the one after that doesn't. Beside a
//! one-shot the list takes a boot alone.
ghost use Rattle.std.specs.Prelude.{◌≡◌, Some, None, IsTrue, IfErr, OnOk, OnErr};
ghost use Rattle.rel_list.specs.Event.{event_of, own_step, status_behind};
ghost use Rattle.rel_list.specs.Refusal.{brings_release, own_refusal};
ghost use Rattle.rel_list.specs.declared.fault.ListError.TheVariants.{NoMemory};

use crate::change::StatusChange;
use crate::{Bundle, ListError, ReleaseList, Status};
use std::alloc::Global;

/// A change of the list of releases. A release that is in the list is named by its version.
pub enum Event {
    /// The node's first release comes in, as the permanent one.
    Made(Bundle),
    /// A further release is there to be installed.
    Unpacked(Bundle),
    /// This release is installed: it runs until the next boot, or for good, if it is the permanent one.
    Installed(String),
    /// This release is installed by a script that ends with a restart: the next boot starts it, once, unless it is the permanent
    /// one. A boot has to follow.
    RestartInstalled(String),
    /// This release, the current one, becomes the permanent one.
    MadePermanent(String),
    /// This release leaves the list.
    Removed(String),
    /// This release, an old one, becomes the permanent one. A boot has to follow.
    RebootOld(String),
    /// The node boots.
    Boot,
}

// Let go by one call: a derived drop would stand variant by variant at each exit of a caller.
impl Drop for Event {
    fn drop(self) {
        match self {
            Event::Made(_bundle) | Event::Unpacked(_bundle) => {}
            Event::Installed(_vsn) | Event::RestartInstalled(_vsn) => {}
            Event::MadePermanent(_vsn) | Event::Removed(_vsn) | Event::RebootOld(_vsn) => {}
            Event::Boot => {}
        }
    }
}

impl Event {
    /// The status that a release of this version and this status has after the event. An event that brings a release, or
    /// takes one out, leaves the statuses of the others.
    pub fn status_behind(&self, vsn: &str, status: Status) -> Status
        ensures { result ≡ status_behind (event_of self.now) vsn.now status }
    {
        match self {
            Event::Installed(installed) => status.installed(installed.as_str() == vsn),
            Event::RestartInstalled(installed) => status.restarted(installed.as_str() == vsn),
            Event::MadePermanent(permanent) | Event::RebootOld(permanent) => {
                status.made_permanent(permanent.as_str() == vsn)
            }
            Event::Boot => status.booted(),
            Event::Made(_) | Event::Unpacked(_) | Event::Removed(_) => status,
        }
    }

    // Changes a list as the event says, whose own rule allows it.
    pub(crate) fn change(self, alloc: Global, list: &mut ReleaseList) -> Result<(), ListError>
        requires { own_refusal (event_of self) list.old ≡ None }
        ensures accepted { OnOk result (own_step (event_of self) list.old ≡ Some list.new) }
        ensures refused { IfErr result
            (λ e. (e ≡ NoMemory) × IsTrue (brings_release (event_of self))) }
        ensures unchanged { OnErr result (list.new ≡ list.old) }
    {
        match self {
            Event::Made(bundle) => list.put(alloc, bundle, Status::Permanent),
            Event::Unpacked(bundle) => list.put(alloc, bundle, Status::Unpacked),
            Event::Installed(vsn) => {
                list.change(StatusChange::Install(vsn.as_str()));
                Ok(())
            }
            Event::RestartInstalled(vsn) => {
                list.change(StatusChange::Restart(vsn.as_str()));
                Ok(())
            }
            Event::MadePermanent(vsn) | Event::RebootOld(vsn) => {
                list.change(StatusChange::MakePermanent(vsn.as_str()));
                Ok(())
            }
            Event::Removed(vsn) => {
                list.remove(vsn.as_str());
                Ok(())
            }
            Event::Boot => {
                list.change(StatusChange::Boot);
                Ok(())
            }
        }
    }
}
