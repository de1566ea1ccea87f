// The format of a node's store.
ghost use Rattle.std.specs.Prelude.{◌≡◌, ℕ, true, IfErr, OnOk};
ghost use Rattle.std.specs.List.{list_any};
ghost use Rattle.rel_disk.specs.Moments.{HasFailed};
ghost use Rattle.rel_list.specs.Event.{event_of};
ghost use Rattle.rel_list.specs.Laws.{makes_one_shot};
ghost use Rattle.rel_list.specs.Status.{is_one_shot};
ghost use Rattle.rel_records.specs.Format.{writes_one_shot};
ghost use Rattle.rel_records.specs.Record.{Assignment};
ghost use Rattle.rel_records.specs.Writing.{changes, record_of};
ghost use Rattle.node_store.specs.Commits.{Reformats};
ghost use Rattle.node_store.specs.State.{disk_in, format_in, is_dead, start_in, IsReady};
ghost use Rattle.rel_store.specs.State.{HasRoom};

use crate::NodeStore;
use node_command::HandlerError;
use rel_disk::Disk;
use rel_list::{Event, ReleaseList};

impl<D: Disk> NodeStore<D> {
    // Makes the store one of format 2, in which alone a release is written as a one-shot. Where the device fails in it, the
    // node is dead.
    pub(crate) fn allow_one_shots(&mut self) -> Result<(), HandlerError>
        requires { IsReady D.seen D.may_leave self.old }
        ensures reformats { Reformats D.Disk self.old self.new }
        ensures ready { OnOk result (IsReady D.seen D.may_leave self.new) }
        ensures works { OnOk result (is_dead self.new ≡ is_dead self.old) }
        ensures start { OnOk result (start_in D.seen self.new ≡ start_in D.seen self.old) }
        ensures format { OnOk result (format_in self.new ≡ 2) }
        ensures room { (n : ℕ) → HasRoom n self.old.store → HasRoom n self.new.store }
        ensures device { IfErr result (λ e. e ≡ HandlerError.Device) }
        ensures failed { IfErr result (λ _.
            HasFailed (D.failures (disk_in self.old)) (D.failures (disk_in self.new))) }
        ensures dead { IfErr result (λ _. is_dead self.new ≡ true) }
    {
        if self.store.to_format_2().is_err() {
            self.dead = true;
            return Err(HandlerError::Device);
        }
        Ok(())
    }
}

// Whether the record of an event writes a release of the list as a one-shot. Only that of a restart does, and not where its release
// is the permanent one.
pub(crate) fn writes_one_shot(event: &Event, list: &ReleaseList) -> bool
    ensures { result ≡ writes_one_shot (record_of (event_of event.now) list.now) }
{
    makes_one_shot(event) && changes_to_one_shot(event, list)
}

// Whether an event makes a release of the list a one-shot that wasn't one.
fn changes_to_one_shot(event: &Event, list: &ReleaseList) -> bool
    ensures { result ≡ list_any (λ (a : Assignment). is_one_shot a.status)
        (changes (event_of event.now) list.now) }
{
    let releases = list.releases();
    for listed in releases {
        let status = event.status_behind(listed.release.vsn.as_str(), listed.status);
        if status.is_one_shot() && !listed.status.is_one_shot() {
            return true;
        }
    }
    false
}

// Whether the event is an installation whose script ends with a restart.
pub(crate) fn makes_one_shot(event: &Event) -> bool
    ensures { result ≡ makes_one_shot (event_of event.now) }
{
    matches!(event, Event::RestartInstalled(_))
}
