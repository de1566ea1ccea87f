//! Laws of the list and its events, whatever keeps them. Each function does nothing: its contract is the law.
ghost use Rattle.rel_list.specs.Laws.{VersionsAreDistinct, AtMostOneIsTemporary, OneIsPermanent, PermanentStays, BootLeavesNoOneShot, OneShotsComeFromRestarts, RestartsAreRecorded, SecondBootChangesNothing, BootChangesTemporaryOnes, InstallsAlikeBehindABoot, RefusedWhereNotAllowed, RecordedListsAreReached};

/// No version stands twice in a list, whatever events made it.
pub fn versions_are_distinct()
    ensures { VersionsAreDistinct }
{}

/// At most one release is current or a one-shot, whatever events made the list.
pub fn at_most_one_release_is_temporary()
    ensures { AtMostOneIsTemporary }
{}

/// Once a first release was made, exactly one release is permanent, whatever events follow.
pub fn exactly_one_release_is_permanent()
    ensures { OneIsPermanent }
{}

/// Only a first release, one that is made permanent and a reboot to an old one change which release is permanent.
pub fn other_events_leave_the_permanent_release()
    ensures { PermanentStays }
{}

/// Only an installation whose script ends with a restart leads to a list with a one-shot.
pub fn only_a_restart_makes_a_one_shot()
    ensures { OneShotsComeFromRestarts }
{}

/// After an installation whose script ends with a restart, records report the list as it is: no release is current then.
pub fn a_restart_is_recorded_as_it_is()
    ensures { RestartsAreRecorded }
{}

/// A boot leaves no one-shot: what it starts as one, the next boot doesn't.
pub fn a_boot_leaves_no_one_shot()
    ensures { BootLeavesNoOneShot }
{}

/// Where no release is a one-shot, a boot after a boot changes nothing.
pub fn a_second_boot_changes_nothing()
    ensures { SecondBootChangesNothing }
{}

/// A boot changes the statuses of current releases and of one-shots alone.
pub fn a_boot_changes_temporary_releases()
    ensures { BootChangesTemporaryOnes }
{}

/// Where a release isn't permanent, its installation, a boot and its installation again give what one installation gives.
pub fn a_release_installs_alike_behind_a_boot()
    ensures { InstallsAlikeBehindABoot }
{}

/// An event has a refusal exactly where the list doesn't allow it.
pub fn an_event_is_refused_where_it_is_not_allowed()
    ensures { RefusedWhereNotAllowed }
{}

/// Events lead from a list as records report it to each other one of the same releases in the same order.
pub fn a_recorded_list_is_reached()
    ensures { RecordedListsAreReached }
{}
