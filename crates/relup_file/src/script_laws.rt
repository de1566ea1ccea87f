//! Laws of the fault of a script. Each function does nothing: its contract is the law.
ghost use Rattle.relup_file.specs.ScriptLaws.{FindsItsFault, FindsNone};

/// What is found of a script is the fault that it has.
pub fn the_fault_of_a_script_is_found()
    ensures { FindsItsFault }
{}

/// No fault is found exactly in a script that can be run.
pub fn none_is_found_where_a_script_can_be_run()
    ensures { FindsNone }
{}
