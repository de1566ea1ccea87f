//! Laws of the translation, above its definition. Each function does nothing: its contract is the law.
ghost use Rattle.relup_translate.specs.Laws.{MakesSoundWays, RefusesFirstFault, SoundIsWhole, ScriptsChangeAll, HasEachEntry, PartsScripts, FetchesLoads, StandsRight, StaysItself, MadeRelupsAreNamed};

/// A relup is made exactly where no way between the releases has a fault.
pub fn a_relup_is_made_exactly_without_a_fault()
    ensures { MakesSoundWays }
{}

/// A refusal is the first fault: of the upgrades, then of the downgrades, each in the order given.
pub fn a_refusal_is_the_first_fault()
    ensures { RefusesFirstFault }
{}

/// A way has no fault exactly where the runtime system stays as it is, and each application that changes its version goes over
/// by the appup of the higher release: it is of that release's version, has an entry for the other one, and its instructions have
/// no fault.
pub fn a_way_is_sound_where_each_changed_application_has_its_entry()
    ensures { SoundIsWhole }
{}

/// The script of a way has all that its changes become, after its point: of each application that comes, of each that goes over
/// from another version, and of each that goes.
pub fn a_script_changes_each_application_that_differs()
    ensures { ScriptsChangeAll }
{}

/// A relup that is made is of the higher release's version. It has an entry for each of the other releases, under its version, in
/// the order given.
pub fn a_made_relup_has_an_entry_for_each_release()
    ensures { HasEachEntry }
{}

/// One point of no return parts each script that is made. Before it stand `load_object_code` alone, and after it no instruction
/// that may not stand there, whether it can be run or not: a restart of the runtime system at the end alone.
pub fn made_scripts_are_parted_by_their_point()
    ensures { PartsScripts }
{}

/// Where no appup of the higher release has a `load` of its own, each script that is made fetches each module that it loads, by a
/// `load_object_code` before its point.
pub fn made_scripts_fetch_what_they_load()
    ensures { FetchesLoads }
{}

/// `check` of `relup_file` finds no fault in a script that is made but an instruction that can't be run anywhere.
pub fn made_scripts_have_only_unsupported_instructions()
    ensures { StandsRight }
{}

/// A relup from a release to itself changes nothing, where its applications have names of their own.
pub fn a_release_stays_itself()
    ensures { StaysItself }
{}

/// The names in a relup that is made are names, its versions are versions, and no script in it is empty: where it is so of the
/// names and versions of the releases, and of the higher one's appups. The limits of a reader are another matter.
pub fn a_made_relup_has_names_and_versions()
    ensures { MadeRelupsAreNamed }
{}
