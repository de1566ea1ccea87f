//! Laws of relups over runtime systems. Each function does nothing: its contract is the law.
ghost use Rattle.runtime_change.specs.Laws.{StaysTheTranslation, BeginsAnew, EndsAnew, IsRefusedByNodes, MadeRelupsAreNamed};

/// Where no way leads to another runtime system, and no restart is asked for, the relup is the translation of the release.
pub fn a_relup_on_one_runtime_system_is_the_translation()
    ensures { StaysTheTranslation }
{}

/// The script of an upgrade to another runtime system begins with `restart_new_emulator`.
pub fn an_upgrade_to_another_runtime_system_begins_with_its_restart()
    ensures { BeginsAnew }
{}

/// The script of a downgrade from another runtime system ends with `restart_emulator`, and has no other; each script where a
/// restart is asked for does so too.
pub fn a_restart_that_is_due_stands_at_the_end_alone()
    ensures { EndsAnew }
{}

/// A node refuses a script that begins with another runtime system, by the number of this instruction.
pub fn a_node_refuses_a_script_that_begins_with_another_runtime_system()
    ensures { IsRefusedByNodes }
{}

/// The names in a relup that is made are names, its versions are versions, and no script in it is empty: where it is so of the
/// names and versions of the releases, and of the higher one's appups. The limits of a reader are another matter.
pub fn a_made_relup_has_names_and_versions()
    ensures { MadeRelupsAreNamed }
{}
