//! Why a list doesn't take an event.
ghost use Rattle.std.specs.Prelude.{◌≡◌};
ghost use Rattle.rel_list.specs.Event.{event_of, waits_for_boot};
ghost use Rattle.rel_list.specs.Event.Event.{unpacked, installed, made_permanent, removed, reboot_old};
ghost use Rattle.rel_list.specs.Keyed.{bundle_of};
ghost use Rattle.rel_list.specs.Refusal.{installation_refusal, own_refusal, refusal};

use crate::{Bundle, Event, ListError, ReleaseList, Status};

impl ReleaseList {
    /// Why the list doesn't take this event: the first condition that it fails. `accept` refuses it so.
    pub fn refusal(&self, event: &Event) -> Option<ListError>
        ensures { result ≡ refusal (event_of event.now) self.now }
    {
        if self.waits_for_boot(event) {
            return Some(ListError::BadStatus(Status::OneShot));
        }
        self.own_refusal(event)
    }

    // Whether a release is a one-shot, and the event is no boot.
    fn waits_for_boot(&self, event: &Event) -> bool
        ensures { result ≡ waits_for_boot (event_of event.now) self.now }
    {
        match event {
            Event::Boot => false,
            _ => self.one_shot().is_some(),
        }
    }

    // Why the event's own rule doesn't allow it.
    fn own_refusal(&self, event: &Event) -> Option<ListError>
        ensures { result ≡ own_refusal (event_of event.now) self.now }
    {
        match event {
            Event::Made(_) if self.is_empty() => None,
            Event::Made(_) => Some(ListError::ExistingRelease),
            Event::Unpacked(bundle) => self.unpacking_refusal(bundle),
            Event::Installed(vsn) | Event::RestartInstalled(vsn) => {
                self.installation_refusal(vsn.as_str())
            }
            Event::MadePermanent(vsn) => self.permanence_refusal(vsn.as_str()),
            Event::Removed(vsn) => self.removal_refusal(vsn.as_str()),
            Event::RebootOld(vsn) => self.reboot_refusal(vsn.as_str()),
            Event::Boot => None,
        }
    }

    // Why it doesn't take a further release.
    fn unpacking_refusal(&self, bundle: &Bundle) -> Option<ListError>
        ensures { result ≡ own_refusal (unpacked (bundle_of bundle.now)) self.now }
    {
        if self.status(bundle.release.vsn.as_str()).is_some() {
            Some(ListError::ExistingRelease)
        } else if self.first_different(bundle.libraries.as_slice()).is_some() {
            Some(ListError::LibDiffers)
        } else {
            None
        }
    }

    /// Why it doesn't take an installation of the release of this version.
    pub fn install_refusal(&self, vsn: &str) -> Option<ListError>
        ensures { result ≡ refusal (installed vsn.now) self.now }
    {
        if self.one_shot().is_some() {
            return Some(ListError::BadStatus(Status::OneShot));
        }
        self.installation_refusal(vsn)
    }

    fn installation_refusal(&self, vsn: &str) -> Option<ListError>
        ensures { result ≡ installation_refusal vsn.now self.now }
    {
        match self.status(vsn) {
            None => Some(ListError::NoSuchRelease),
            Some(status) if self.runs(status) => Some(ListError::AlreadyInstalled),
            Some(_) => None,
        }
    }

    fn permanence_refusal(&self, vsn: &str) -> Option<ListError>
        ensures { result ≡ own_refusal (made_permanent vsn.now) self.now }
    {
        match self.status(vsn) {
            None => Some(ListError::NoSuchRelease),
            Some(Status::Current) => None,
            Some(status) => Some(ListError::BadStatus(status)),
        }
    }

    fn removal_refusal(&self, vsn: &str) -> Option<ListError>
        ensures { result ≡ own_refusal (removed vsn.now) self.now }
    {
        match self.status(vsn) {
            None => Some(ListError::NoSuchRelease),
            Some(Status::Permanent) => Some(ListError::Permanent),
            Some(Status::Current | Status::OneShot) => Some(ListError::Running),
            Some(Status::Unpacked | Status::Old) => None,
        }
    }

    fn reboot_refusal(&self, vsn: &str) -> Option<ListError>
        ensures { result ≡ own_refusal (reboot_old vsn.now) self.now }
    {
        match self.status(vsn) {
            None => Some(ListError::NoSuchRelease),
            Some(Status::Old) => None,
            Some(status) => Some(ListError::BadStatus(status)),
        }
    }
}
