//! Laws of the answers of sessions. Each function does nothing: its contract is the law, and the laws that it calls are what it
//! rests on.
ghost use Rattle.std.specs.Prelude.{[]};
ghost use Rattle.rel_session.specs.Node.DiskState.{unknown_bytes};
ghost use Rattle.session_laws.specs.AnswerLaws.{HaveOneAnswer, HaveOneText, EachHasAnAnswer, HaveOneList, ListDecidesAnswers, ListDecidesText, DeterminesOneRun, EachTextShows, ShowsOneRun, TellsEvents, ReadsLinePaths, KeepsVersions, RepliesKeepVersions};
ghost use Rattle.session_laws.specs.LawsBelow.{BootLaws};

use file_source::Files;
use rel_disk::Disk;
use rel_handler::laws::{a_disk_boots_or_is_refused, a_disk_with_a_list_holds_a_store};

/// A disk stands for one list, and holds a store then, or a boot refuses it.
fn a_disk_stands_for_one_list()
    ensures { BootLaws }
{
    a_disk_boots_or_is_refused();
    a_disk_with_a_list_holds_a_store();
}

/// Where neither the device fails nor memory is refused, not to a compaction either, an input has one answer from each place
/// with nothing in doubt. No two sessions that come to the end of their input, or of what is taken of it, answer otherwise,
/// where a read of a file has one answer. And one answer there is, where each read has one.
pub fn an_input_has_one_answer<D: Disk, F: Files>()
    ensures one { (files : F) → HaveOneAnswer (F.gives files) }
    ensures written { (files : F) → HaveOneText D.Disk (F.gives files) }
    ensures some { (files : F) → EachHasAnAnswer (F.gives files) }
{
    a_disk_stands_for_one_list();
}

/// Where the device does not fail, and no answer is that a record does not fit or that memory was refused, the list of a disk
/// decides what a session answers that comes to the end of its input, or of what is taken of it: whatever the bytes of the
/// disk, the events of its store and how far it reaches, and whether memory was refused to a compaction. So it is of two disks
/// without a list too, where a boot refuses both alike. A read of a file has to have one answer.
pub fn a_list_decides_what_is_answered<D: Disk, E: Disk, F: Files>()
    ensures answered { (files : F) → ListDecidesAnswers (F.gives files) }
    ensures written { (files : F) → ListDecidesText D.Disk E.Disk (F.gives files) }

    // Empty disks are alike so.
    ensures empty { HaveOneList (unknown_bytes []) (unknown_bytes []) }
{
    a_disk_stands_for_one_list();
}

/// Two runs of the same commands from one place that came to the end of their input, or of what is taken of it, and have
/// written the same text have the same events, acknowledged and in doubt, command by command, where the same installations end
/// with a restart. So a text determines which they are, whether the device failed or not. What ends with a restart has to be
/// known, since its answer has a line more, which may be that of the next command.
pub fn a_text_determines_one_run<D: Disk, F: Files>()
    ensures one { (files : F) → DeterminesOneRun (F.gives files) }

    // The paths of an input's commands are as it asks, and so are the versions of a store with nothing in doubt, and those
    // after each reply.
    ensures paths { ReadsLinePaths }
    ensures versions { KeepsVersions D.Disk }
    ensures replies { (files : F) → RepliesKeepVersions D.Disk (F.gives files) }
{}

/// The whole answers of a text determine which events are acknowledged, wherever its session broke off, and at most the events
/// of the next command are in doubt.
///
/// Two runs of the same commands from one place which have written the same text have the same whole answers in it, and the
/// same events with them, acknowledged and in doubt, command by command. Each has followed at most one command more, of whose
/// answer a part stands at the end, or nothing. The premises are those of `a_text_determines_one_run`, without an end. On the
/// disk that is handed back a crash leaves the events that these answers tell of, and none, some or all of those of that one
/// command.
pub fn a_broken_text_determines_its_events<D: Disk, F: Files>()
    ensures shown { (files : F) → EachTextShows (F.gives files) }
    ensures one { (files : F) → ShowsOneRun (F.gives files) }
    ensures events { (files : F) → TellsEvents D.Disk (F.gives files) }
{}
