//! Laws of records and lists, whatever reads and writes them. Each function does nothing: its contract is the law.
ghost use Rattle.rel_records.specs.Laws.{SpellsOneRecord, MakeOrHaveABadOne, MakeOneList, NeverBothRecords, MakeItInFormat2, RecordsDetermineEvents, OnlyRestartsWriteOneShots, ImagesWriteTheirOneShots, RecordsAreOfEvents, StatusesAreOfEvents, MakeVersions, MakeLibraries, MakeStartableReleases};
ghost use Rattle.rel_records.specs.StatusLaws.{EventsSaySuchStatuses, SuchStatusesAreOfOneEvent};

/// A body spells one record at most.
pub fn a_body_spells_one_record()
    ensures { SpellsOneRecord }
{}

/// The bodies of records make one list, or one of them is the first bad record, and never both.
pub fn records_make_a_list_or_one_is_bad()
    ensures either { MakeOrHaveABadOne }
    ensures one { MakeOneList }
    ensures never_both { NeverBothRecords }
{}

/// What records make in a store of any format, they make in one of format 2.
pub fn records_make_it_in_format_2()
    ensures { MakeItInFormat2 }
{}

/// No record of an event but a restart's writes the status `one_shot`. An image does exactly where its list has a one-shot.
pub fn records_write_one_shots()
    ensures events { OnlyRestartsWriteOneShots }
    ensures images { ImagesWriteTheirOneShots }
{}

/// The record of an event makes of a list what the event makes of it, each as records report it: of a list whose versions are
/// distinct, of which one release at most is current or a one-shot, and whose libraries are of files, where the event keeps the
/// limits of a node and one release is permanent after it.
pub fn records_determine_events()
    ensures { RecordsDetermineEvents }
{}

/// A record of a release that comes in or leaves may stand after a list, whose libraries are of files, only where it is that of an
/// event. One of statuses may stand after a list that records report so only where it is empty, or says of each release what one
/// event says of a node with such a list. If it names no release twice, it is the record of that event.
pub fn records_are_of_events()
    ensures releases { RecordsAreOfEvents }
    ensures statuses { StatusesAreOfEvents }
{}

/// The releases of a list that records make have the versions of files.
pub fn records_make_versions()
    ensures { MakeVersions }
{}

/// The libraries of a list that records make are what the files of applications say.
pub fn records_make_libraries()
    ensures { MakeLibraries }
{}

/// A boot can start each release of a list that records make.
pub fn records_make_startable_releases()
    ensures { MakeStartableReleases }
{}

/// What an event says of each release is accepted as that of one event, after the statuses before it as records report them: of a
/// list whose versions are distinct, and of which one release at most is current or a one-shot, where the event brings no release
/// and takes none out.
pub fn an_event_says_its_statuses()
    ensures { EventsSaySuchStatuses }
{}

/// What is accepted as said by one event is said of no release, or by one event of the releases of a node that records report so,
/// and the event makes those statuses of it. Exactly one release is permanent before and after.
pub fn such_statuses_are_of_one_event()
    ensures { SuchStatusesAreOfOneEvent }
{}
