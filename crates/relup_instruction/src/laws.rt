//! Laws of instructions and scripts. Each function does nothing: its contract is the law.
ghost use Rattle.relup_instruction.specs.Laws.{InstructionsAreRead, ScriptsAreRead};

/// A term is read as an instruction exactly where it is that instruction's term, its names are names, its version is one, and its
/// timeouts are not below 0.
pub fn an_instruction_is_read_of_its_term_alone()
    ensures { InstructionsAreRead }
{}

/// Terms are read as a script exactly where they spell it. An empty list of terms spells the point of no return alone, too.
pub fn a_script_is_read_of_its_terms_alone()
    ensures { ScriptsAreRead }
{}
