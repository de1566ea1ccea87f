//! Laws of the files themselves, whatever reads them. Each function does nothing: its contract is the law.
ghost use Rattle.rel_files.specs.Laws.{SaysOneRelease, HasOneFault, NeverBoth, SaysOrFails};

/// No file says two releases.
pub fn no_file_says_two_releases()
    ensures { SaysOneRelease }
{}

/// A file has one fault at most.
pub fn a_file_has_one_fault()
    ensures { HasOneFault }
{}

/// No file both says a release and has a fault.
pub fn no_file_says_a_release_and_has_a_fault()
    ensures { NeverBoth }
{}

/// Each file says a release or has a fault.
pub fn each_file_says_a_release_or_has_a_fault()
    ensures { SaysOrFails }
{}
