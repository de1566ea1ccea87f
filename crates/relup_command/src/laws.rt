//! Laws of the releases that files say, and of the relups that are made of them. Each function does nothing: its contract is the
//! law.
ghost use Rattle.relup_command.specs.Laws.{MadeRelupsAreNamed, ReadReleasesAreWellFormed};

use file_source::Files;

/// The names in releases that are read from files are names, and their versions are versions, also in the appups of the new one,
/// whatever the files say.
pub fn releases_read_from_files_are_well_formed<F: Files>()
    ensures { (files : F) → ReadReleasesAreWellFormed (F.gives files) }
{}

/// The names in a relup that is made of files are names, its versions are versions, and none of its scripts is empty, whatever
/// the files say. The limits of a reader are another matter.
pub fn a_relup_made_of_files_has_names_and_versions<F: Files>()
    ensures { (files : F) → MadeRelupsAreNamed (F.gives files) }
{}
