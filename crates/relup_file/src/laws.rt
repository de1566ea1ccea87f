//! Laws of the files themselves, whatever reads them. Each function does nothing: its contract is the law.
ghost use Rattle.relup_file.specs.Laws.{SaysOneRelup, HasOneFault, NeverBoth, SaysOrFails};

/// No file says two relups.
pub fn no_file_says_two_relups()
    ensures { SaysOneRelup }
{}

/// A file has one fault at most.
pub fn a_file_has_one_fault()
    ensures { HasOneFault }
{}

/// No file both says a relup and has a fault.
pub fn no_file_says_a_relup_and_has_a_fault()
    ensures { NeverBoth }
{}

/// Each file says a relup or has a fault.
pub fn each_file_says_a_relup_or_has_a_fault()
    ensures { SaysOrFails }
{}
