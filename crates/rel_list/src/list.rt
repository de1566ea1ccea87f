//! The list of releases.
ghost use Rattle.std.specs.Prelude.{◌≡◌, ◌↔◌, ◌≤◌, false, Some, None, [], ◌∷◌, ◌++◌, find, length, map, string_bytes, IsTrue, IsFalse, IfErr, OnOk, OnErr};
ghost use Rattle.std.specs.Option.{option_map, option_copied, option_to_list};
ghost use Rattle.rel_list.specs.Status.{is_current, is_one_shot, is_permanent, is_temporary};
ghost use Rattle.rel_list.specs.Change.{has_other_temporary, is_other_temporary};
ghost use Rattle.rel_list.specs.Keyed.{entry_of};

use crate::change::StatusChange;
use crate::{Bundle, Event, ListError, ListedRelease, Status};
use indexmap::IndexMap;
use library::Library;
use rel_files::Rel;
use relup_file::Relup;
use std::alloc::Global;
use std::marker::Model;
use std::rc::Rc;

/// The releases of a node. A contract sees their entries, in order of coming.
#[derive(Drop)]
pub struct ReleaseList {
    /// By version.
    releases: IndexMap<String, ListedRelease>,
}

impl Model for ReleaseList {
    ghost use Rattle.rel_list.specs.Releases.{Releases};
    ghost use Rattle.rel_list.specs.Keyed.{entries_in, IsKept};
    ghost use Rattle.std.specs.Coded.{codes};
    ghost use Rattle.library.specs.Codes.{value_code, values_code};

    ghost Value = { Releases };

    // Of terms, which hold further terms, Rattle finds no code by itself.
    ghost coded = { Prim.hlevel (codes, value_code, values_code) };

    ghost view = { λ l. entries_in l.releases.entries };

    ghost invariant = { λ l. IsKept l.releases.entries };
}

impl ReleaseList {
    ghost use Rattle.rel_list.specs.Event.{event_of, own_step, step, boot_changes, with_statuses, list_assigned, without};
    ghost use Rattle.rel_list.specs.Releases.{entry, permanent, current, one_shot, running, status_of, release_at, relup_at, libraries_at, has_current, of_status, HasDistinctVersions};
    ghost use Rattle.rel_list.specs.Refusal.{brings_release, own_refusal, IsRefusedWith};
    ghost use Rattle.rel_list.specs.declared.fault.ListError.TheVariants.{NoMemory};
    ghost use Rattle.rel_list.specs.Change.{status_after, may_be_given, MayBeMade};
    ghost use Rattle.rel_list.specs.Status.{runs};
    ghost use Rattle.rel_list.specs.Keyed.{bundle_of};
    ghost use Rattle.rel_files.specs.Release.{release_of};
    ghost use Rattle.relup_file.specs.Relup.{relup_of};
    ghost use Rattle.library.specs.InMemory.{shared_of};

    /// A list without releases.
    pub fn new(alloc: Global) -> ReleaseList
        ensures { result ≡ [] }
    {
        ReleaseList {
            releases: IndexMap::new(alloc),
        }
    }

    /// Changes the list as the event says. Only an event that brings a release takes memory.
    pub fn accept(&mut self, alloc: Global, event: Event) -> Result<(), ListError>
        ensures accepted { OnOk result (step (event_of event) self.old ≡ Some self.new) }
        ensures refused { IfErr result (IsRefusedWith (event_of event) self.old) }
        ensures unchanged { OnErr result (self.new ≡ self.old) }
    {
        if let Some(why) = self.refusal(&event) {
            return Err(why);
        }
        event.change(alloc, self)
    }

    // Takes the release of this version out of the list.
    pub(crate) fn remove(&mut self, vsn: &str)
        ensures { self.new ≡ without vsn.now self.old }
    {
        self.releases.shift_remove(vsn);
    }

    // Puts a release of a new version last.
    pub(crate) fn put(
        &mut self,
        alloc: Global,
        bundle: Bundle,
        status: Status,
    ) -> Result<(), ListError>
        requires new { status_of (string_bytes bundle.release.vsn) self.old ≡ None }
        requires not_temporary { is_temporary status ≡ false }
        ensures added { OnOk result
            (self.new ≡ self.old ++ entry (bundle_of bundle) status ∷ []) }
        ensures memory { IfErr result (λ e. e ≡ ListError.NoMemory) }
        ensures unchanged { OnErr result (self.new ≡ self.old) }
    {
        let Bundle {
            release,
            libraries,
            relup,
        } = bundle;
        let vsn = String::from_str(alloc, release.vsn.as_str())?;
        let listed = ListedRelease {
            release,
            libraries,
            relup,
            status,
        };
        self.releases.insert(vsn, listed)?;
        Ok(())
    }

    /// Gives the release of this version a status, and answers whether it may have it. So a list is read back that was written
    /// as assignments of statuses: none of them is `current`, and a one-shot stands beside no other. Else nothing changes.
    pub fn assign(&mut self, vsn: &str, status: Status) -> bool
        ensures may { result ≡ may_be_given status vsn.now self.old }
        ensures assigned { IsTrue result → self.new ≡ list_assigned vsn.now status self.old }
        ensures unchanged { IsFalse result → self.new ≡ self.old }
    {
        if !self.may_assign(vsn, status) {
            return false;
        }
        self.change(StatusChange::Assign(vsn, status));
        true
    }

    // Whether the release of this version may have this status by an assignment.
    fn may_assign(&self, vsn: &str, status: Status) -> bool
        ensures { result ≡ may_be_given status vsn.now self.now }
    {
        match status {
            Status::Current => false,
            Status::OneShot => self.status(vsn).is_some()
                && !has_other_temporary(self.releases(), vsn),
            Status::Unpacked | Status::Old | Status::Permanent => self.status(vsn).is_some(),
        }
    }

    // Changes the statuses of all releases.
    pub(crate) fn change(&mut self, change: StatusChange<'_>)
        requires { MayBeMade change self.old }
        ensures { self.new ≡ with_statuses (status_after change.entry) self.old }
    {
        change.change(&mut self.releases);
    }

    // Whether a release with this status runs, or is a one-shot.
    pub(crate) fn runs(&self, status: Status) -> bool
        ensures { result ≡ runs (has_current self.now) status }
    {
        match status {
            Status::Current | Status::OneShot => true,
            Status::Permanent => self.current().is_none(),
            Status::Unpacked | Status::Old => false,
        }
    }

    /// The permanent release: a boot starts it, unless the list has a one-shot.
    pub fn permanent(&self) -> Option<&Rel>
        ensures { option_map release_of (option_copied result) ≡ permanent self.now }
    {
        first_permanent(self.releases()).map(|listed| &listed.release)
    }

    // The release that runs until the next boot and isn't permanent.
    fn current(&self) -> Option<&Rel>
        ensures { option_map release_of (option_copied result) ≡ current self.now }
    {
        first_current(self.releases()).map(|listed| &listed.release)
    }

    /// The release that the next boot starts, once.
    pub fn one_shot(&self) -> Option<&Rel>
        ensures { option_map release_of (option_copied result) ≡ one_shot self.now }
    {
        first_one_shot(self.releases()).map(|listed| &listed.release)
    }

    /// The release that runs.
    pub fn running(&self) -> Option<&Rel>
        ensures { option_map release_of (option_copied result) ≡ running self.now }
    {
        self.current().or(self.permanent())
    }

    /// The version of the release whose status a boot would change, if there is one.
    pub fn boot_events(&self) -> Option<&str>
        ensures { option_to_list (option_map (λ vsn. vsn.now) result) ≡ boot_changes self.now }
    {
        first_temporary(self.releases.values().as_slice()).map(|listed| listed.release.vsn.as_str())
    }

    /// The release of this version.
    pub fn release(&self, vsn: &str) -> Option<&Rel>
        ensures { option_map release_of (option_copied result) ≡ release_at vsn.now self.now }
    {
        self.releases.get(vsn).map(|listed| &listed.release)
    }

    /// The relup of the release of this version, if it has one.
    pub fn relup(&self, vsn: &str) -> Option<&Relup>
        ensures { option_map relup_of (option_copied result) ≡ relup_at vsn.now self.now }
    {
        match self.releases.get(vsn) {
            Some(listed) => listed.relup.as_ref(),
            None => None,
        }
    }

    /// The libraries of the release of this version, in the order of its applications; none where it isn't listed.
    pub fn libraries(&self, vsn: &str) -> &[Rc<Library>]
        ensures { map shared_of result.now ≡ libraries_at vsn.now self.now }
    {
        match self.releases.get(vsn) {
            Some(listed) => listed.libraries.as_slice(),
            None => &[],
        }
    }

    /// The status of the release of this version.
    pub fn status(&self, vsn: &str) -> Option<Status>
        ensures { result ≡ status_of vsn.now self.now }
    {
        self.releases.get(vsn).map(|listed| listed.status)
    }

    /// The releases with their statuses, in order of coming. No version stands twice, and at most one of them is current or a
    /// one-shot.
    pub fn releases(&self) -> &[ListedRelease]
        ensures entries { map entry_of result.now ≡ self.now }
        ensures distinct { HasDistinctVersions self.now }
        ensures one_temporary { length (of_status is_temporary self.now) ≤ 1 }
    {
        self.releases.values().as_slice()
    }

    /// How many releases there are.
    pub fn len(&self) -> usize
        ensures { result ≡ length self.now }
    {
        self.releases.len()
    }

    /// Whether there is none.
    pub fn is_empty(&self) -> bool
        ensures { IsTrue result ↔ (self.now ≡ []) }
    {
        self.releases.is_empty()
    }
}

// Whether a release of another version is current or a one-shot.
fn has_other_temporary(releases: &[ListedRelease], vsn: &str) -> bool
    ensures { result ≡ has_other_temporary vsn.now (map entry_of releases.now) }
{
    for listed in releases {
        if is_other_temporary(listed, vsn) {
            return true;
        }
    }
    false
}

fn is_other_temporary(listed: &ListedRelease, vsn: &str) -> bool
    ensures { result ≡ is_other_temporary vsn.now (entry_of listed.now) }
{
    listed.release.vsn.as_str() != vsn && listed.status.is_temporary()
}

fn first_permanent(releases: &[ListedRelease]) -> Option<&ListedRelease>
    ensures { option_copied result ≡ find (λ l. is_permanent l.status) releases.now }
{
    releases.iter().find(|listed| listed.status.is_permanent())
}

fn first_one_shot(releases: &[ListedRelease]) -> Option<&ListedRelease>
    ensures { option_copied result ≡ find (λ l. is_one_shot l.status) releases.now }
{
    releases.iter().find(|listed| listed.status.is_one_shot())
}

fn first_temporary(releases: &[ListedRelease]) -> Option<&ListedRelease>
    ensures { option_copied result ≡ find (λ l. is_temporary l.status) releases.now }
{
    releases.iter().find(|listed| listed.status.is_temporary())
}

fn first_current(releases: &[ListedRelease]) -> Option<&ListedRelease>
    ensures { option_copied result ≡ find (λ l. is_current l.status) releases.now }
{
    releases.iter().find(|listed| listed.status.is_current())
}
