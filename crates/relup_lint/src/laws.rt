//! What scripts have of which nothing is refused. Each function does nothing: its contract is the law.
ghost use Rattle.relup_lint.specs.Laws.{NeedsNothing};

/// Where nothing is refused, each name of an instruction has what it needs from an instruction of the script: what is loaded is
/// fetched, what is suspended is resumed and the reverse, what is stopped is started and the reverse, and each module of a
/// DepMods has an instruction of its own.
pub fn a_script_without_findings_has_what_its_names_need()
    ensures { NeedsNothing }
{}
