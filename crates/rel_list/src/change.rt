// What the events that bring no release make of the statuses.
ghost use Rattle.std.specs.Prelude.{◌≡◌, map, string_bytes};
ghost use Rattle.rel_list.specs.Change.{status_after, changed};

use crate::{ListedRelease, Status};
use indexmap::IndexMap;

// A change of the statuses of a list. A release is named by its version.
#[derive(Clone, Copy)]
pub(crate) enum StatusChange<'a> {
    Install(&'a str),
    Restart(&'a str),
    MakePermanent(&'a str),
    Boot,
    Assign(&'a str, Status),
}

impl StatusChange<'_> {
    // The status of a release after the change.
    fn status_after(self, listed: &ListedRelease) -> Status
        ensures { result
            ≡ status_after self.entry (string_bytes listed.now.release.vsn) listed.now.status }
    {
        match self {
            StatusChange::Install(vsn) => {
                listed.status.installed(listed.release.vsn.as_str() == vsn)
            }
            StatusChange::Restart(vsn) => {
                listed.status.restarted(listed.release.vsn.as_str() == vsn)
            }
            StatusChange::MakePermanent(vsn) => {
                listed
                    .status
                    .made_permanent(listed.release.vsn.as_str() == vsn)
            }
            StatusChange::Boot => listed.status.booted(),
            StatusChange::Assign(vsn, status) => {
                if listed.release.vsn.as_str() == vsn {
                    status
                } else {
                    listed.status
                }
            }
        }
    }

    // Gives each release the status that it has after the change.
    pub(crate) fn change(self, releases: &mut IndexMap<String, ListedRelease>)
        ensures { releases.new.entries ≡ map (changed self.entry) releases.old.entries }
    {
        for i in 0..releases.len() {
            if let Some(listed) = releases.get_index_mut(i) {
                listed.status = self.status_after(listed);
            }
        }
    }
}
