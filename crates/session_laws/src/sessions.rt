//! Crash safety of whole sessions, from what `session` ensures alone. Each function does nothing: its contract is the law.
ghost use Rattle.std.specs.Prelude.{◌≡◌, ℕ, []};
ghost use Rattle.node_store.specs.Events.{StoreState};
ghost use Rattle.session_laws.specs.KeptEvents.{AnswersKeepEvents, KeepsAcknowledged, KeepEventsOver, SessionMayBegin, SessionsKeepEvents, SessionsKeepEventsOnceMade};

use file_source::Files;
use rel_disk::Disk;

/// No session loses an acknowledged event, or has one that nobody asked for, however it ends.
///
/// Whoever has called `session` on a disk with a known store has the premises: its clause `session`, and that the session began
/// there. At each moment of the session a crash leaves the list of a prefix of the accepted events with every acknowledged one,
/// and after them, in order, of none, some or all of the events of the command that is under way. Each image of the disk that
/// is handed back stands for such a prefix. There, and on what a crash left, another session may begin, with just these events.
pub fn no_session_loses_an_event<D: Disk, F: Files>()
    // On a disk with a store whose events are known.
    ensures stored { (files : F) (s : StoreState) (disk : D) → SessionMayBegin D.Disk s disk
        → SessionsKeepEvents D.Disk (F.gives files) (SessionMayBegin D.Disk) s disk }

    // A session may be given a writer that accepts an answer only on a disk that keeps the events of all answers so far.
    ensures answered { (files : F) (s : StoreState) (disk : D) → SessionMayBegin D.Disk s disk
        → AnswersKeepEvents D.Disk (F.gives files) (SessionMayBegin D.Disk) s disk }

    // The events that are acknowledged after commands begin with those that were acknowledged before.
    ensures kept { KeepsAcknowledged }

    // On an empty disk.
    ensures made { (files : F) (disk : D) → D.seen disk ≡ []
        → SessionsKeepEventsOnceMade D.Disk (F.gives files) (SessionMayBegin D.Disk) disk }
{}

/// No number of sessions and crashes loses an acknowledged event, or adds one that nobody asked for.
///
/// Each session begins on the disk that the one before it handed back, or on one that holds what a crash left at any of its
/// moments, whatever its files, its input and its ending.
pub fn no_number_of_sessions_loses_an_event<D: Disk, F: Files>()
    // The first one begins on a disk with a store whose events are known.
    ensures stored { (n : ℕ) (s : StoreState) (disk : D) → SessionMayBegin D.Disk s disk
        → KeepEventsOver D.Disk (λ (files : F). F.gives files) n s disk }

    // The first one begins on an empty disk.
    ensures made { (n : ℕ) (files : F) (disk : D) → D.seen disk ≡ []
        → SessionsKeepEventsOnceMade D.Disk (F.gives files)
        (KeepEventsOver D.Disk (λ (files : F). F.gives files) n) disk }
{}
