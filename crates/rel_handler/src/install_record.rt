// What an installation appends to the store after its script.
ghost use Rattle.std.specs.Prelude.{◌≡◌, IfOk, None, length, string_bytes};
ghost use Rattle.node_command.specs.Taking.{change_size};
ghost use Rattle.node_store.specs.Commits.{IsRecordFor};
ghost use Rattle.rel_handler.specs.Installing.{installation_event, room_behind};
ghost use Rattle.rel_list.specs.Event.{event_of, list_restarted};
ghost use Rattle.rel_list.specs.Event.Event.{installed};
ghost use Rattle.rel_list.specs.Refusal.{refusal};
ghost use Rattle.rel_list.specs.Releases.{has_one_shot};
ghost use Rattle.rel_records.specs.Lists.{HaveVersions};

use record_writer::{boot_body_behind_restart, change_body};
use rel_list::{Event, ReleaseList};
use rel_store::RECORD_HEAD;
use std::alloc::{AllocError, Global};

// The record of an installation.
#[derive(Drop)]
pub(crate) struct InstallRecord {
    pub(crate) event: Event,
    pub(crate) body: String,
    // how many bytes have to fit after it
    pub(crate) room: usize,
}

impl InstallRecord {
    // That of an installation of this version, which the list allows, by whether its script ends with a restart.
    pub(crate) fn of(
        alloc: Global,
        list: &ReleaseList,
        vsn: &str,
        restarts: bool,
    ) -> Result<InstallRecord, AllocError>
        requires allowed { refusal (installed vsn.now) list.now ≡ None }
        requires versions { HaveVersions list.now }
        ensures event { IfOk result (λ r. event_of r.event ≡ installation_event restarts vsn.now) }
        ensures reported { IfOk result (λ r. IsRecordFor (string_bytes r.body)
            (installation_event restarts vsn.now) list.now) }
        ensures size { IfOk result (λ r. length (string_bytes r.body)
            ≡ change_size (installation_event restarts vsn.now) list.now) }
        ensures room { IfOk result (λ r. r.room ≡ room_behind restarts vsn.now list.now) }
    {
        let event = installation_event(alloc, vsn, restarts)?;
        let body = change_body(alloc, list, &event)?;
        let room = room_behind(alloc, list, vsn, restarts)?;
        Ok(InstallRecord { event, body, room })
    }
}

// The event of an installation of this version.
fn installation_event(alloc: Global, vsn: &str, restarts: bool) -> Result<Event, AllocError>
    ensures { IfOk result (λ e. event_of e ≡ installation_event restarts vsn.now) }
{
    let vsn = String::from_str(alloc, vsn)?;
    if restarts {
        Ok(Event::RestartInstalled(vsn))
    } else {
        Ok(Event::Installed(vsn))
    }
}

// How many bytes the record of the boot after an installation takes: none where it has no one-shot to take away.
fn room_behind(
    alloc: Global,
    list: &ReleaseList,
    vsn: &str,
    restarts: bool,
) -> Result<usize, AllocError>
    ensures { IfOk result (λ n. n ≡ room_behind restarts vsn.now list.now) }
{
    if !restarts {
        return Ok(0);
    }
    if !leaves_one_shot(list, vsn) {
        return Ok(0);
    }
    let body = boot_body_behind_restart(alloc, list, vsn)?;
    Ok(RECORD_HEAD + body.len())
}

// Whether a release of the list is a one-shot after an installation of this version with a restart.
fn leaves_one_shot(list: &ReleaseList, vsn: &str) -> bool
    ensures { result ≡ has_one_shot (list_restarted vsn.now list.now) }
{
    let releases = list.releases();
    for listed in releases {
        let itself = vsn == listed.release.vsn.as_str();
        if listed.status.restarted(itself).is_one_shot() {
            return true;
        }
    }
    false
}
