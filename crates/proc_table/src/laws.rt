//! Laws of the definitions themselves. Each function does nothing: its contract is the law.
ghost use Rattle.proc_table.specs.Alone.{AloneSeesAll};
ghost use Rattle.proc_table.specs.Free.{BeginsTakeOne, HandlerKnows};
ghost use Rattle.proc_table.specs.Moves.{RunsAgree, ReachedAgrees, HeldAlone};
ghost use Rattle.proc_table.specs.Places.{SlotsLieApart};
ghost use Rattle.proc_table.specs.Together.{TwoClients, CallsStandApart};
ghost use Rattle.proc_table.specs.Waits.{HoldsAndReleases};
ghost use Rattle.proc_table.specs.Words.{WordsShow};

/// Every run of the kinds of step, by any number of passes, keeps agreement.
pub fn every_run_keeps_agreement()
    ensures { RunsAgree }
{}

/// What a run from the start leads to agrees.
pub fn what_is_reached_agrees()
    ensures { ReachedAgrees }
{}

/// The word of a process shows who has it: nobody at 0, a client at 1, and else the handler. So `Busy` and `Held` are answered
/// by a word that shows another, and a call by one that shows nobody.
pub fn the_word_of_a_process_shows_who_has_it()
    ensures { WordsShow }
{}

/// While the handler or a client has a process, no other has it, and so no call of it is answered.
pub fn who_has_a_process_has_it_alone()
    ensures { HeldAlone }
{}

/// Two clients that called one process, and then met, see one legal history, in which the calls of each stand, in order and
/// each once.
pub fn two_clients_see_one_history()
    ensures { TwoClients }
{}

/// While the handler holds a process, no call of it is answered: each call stands before the hold, or after the release.
pub fn no_call_is_answered_while_held()
    ensures { CallsStandApart }
{}

/// Of a slot that was waited for and is held, all is known as if it had been held at once; a release leaves other slots as
/// they were.
pub fn holds_and_releases_leave_other_slots()
    ensures { HoldsAndReleases }
{}

/// The handler alone begins processes and gives them up: by the whole history of a slot a process can begin there exactly
/// where it can by what the handler has seen, and with the same round.
pub fn the_handler_knows_where_a_process_can_begin()
    ensures { HandlerKnows }
{}

/// A process that begins takes one of the slots in which one can, and where there is none, none is counted.
pub fn a_begin_takes_one_free_slot()
    ensures { BeginsTakeOne }
{}

/// While the handler has lent no pass, it has seen all of each history: what it holds, after waiting or not, is what it knew.
pub fn a_handler_alone_sees_all()
    ensures { AloneSeesAll }
{}

/// Each slot has a place of its own in the base table. Neighbouring slots, and any two of the lowest 32, have places that are
/// eight or more apart.
pub fn neighbouring_slots_lie_apart()
    ensures { SlotsLieApart }
{}
