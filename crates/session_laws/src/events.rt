//! Laws of the events of sessions. Each function does nothing: its contract is the law.
ghost use Rattle.session_laws.specs.AnswerLaws.{FailsOnlyWithTheDevice, ReportsDoubt};
ghost use Rattle.session_laws.specs.RunLaws.{EachKeeps, IsOfAccepted, LosesNothing, BeginsWhereOneEnded, BeginsBehindACrash, LosesNothingEver, BeginsWithAMaking};

use file_source::Files;
use rel_disk::Disk;

/// Each reply keeps the acknowledged events, and adds only its own.
///
/// At each moment of a session, ended or broken off, a crash leaves the list of events that begin with all those acknowledged before
/// that moment. After these stand only the one that was in doubt, if there was one, and what later commands add, in order. And it
/// leaves a start record that is no older than the last of the acknowledged events after which it was right, as it is where a node
/// runs.
pub fn a_crash_loses_nothing_acknowledged<D: Disk, F: Files>()
    ensures replies { (files : F) → EachKeeps (F.gives files) }
    ensures accepted { IsOfAccepted }
    ensures moments { (files : F) → LosesNothing D.Disk (F.gives files) }
{}

/// A session may begin on the disk that another handed back, and on one that holds what a crash left of it, with just its events.
/// No number of sessions and crashes loses an acknowledged event, adds one that no command asked for, or brings back a start
/// record from before it was last right.
pub fn a_session_begins_where_another_ended<D: Disk, F: Files>()
    ensures ended { BeginsWhereOneEnded D.Disk }
    ensures crashed { BeginsBehindACrash D.Disk }
    ensures ever { (files : F) → LosesNothingEver D.Disk (F.gives files) }
{}

/// On an empty disk of a device that has not failed, the first event that is acknowledged is that a release was made.
/// From then on no acknowledged event is lost, and none is there that no command asked for, whatever fails.
pub fn an_empty_disk_begins_with_a_making<D: Disk, F: Files>()
    ensures { (files : F) → BeginsWithAMaking D.Disk (F.gives files) }
{}

/// Where the device's count of failures does not rise in a session, no command fails by it, and no event is in doubt but those of
/// boots that had no memory.
pub fn no_failure_leaves_no_doubt<D: Disk, F: Files>()
    ensures { (files : F) → FailsOnlyWithTheDevice D.Disk (F.gives files) }
{}

/// An event that is in doubt is reported as a failure of the device, or, if it is a boot, as out of memory; never as done.
pub fn a_doubt_is_reported_as_a_failure<F: Files>()
    ensures { (files : F) → ReportsDoubt (F.gives files) }
{}
