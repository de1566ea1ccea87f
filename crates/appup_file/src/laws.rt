//! Laws of the files and terms themselves, whatever reads them. Each function does nothing: its contract is the law.
ghost use Rattle.appup_file.specs.Laws.{SaysOneAppup, HasOneFault, NeverBoth, SaysOrFails, SaysItsTerm, HasItsPlace};

/// No file says two appups.
pub fn no_file_says_two_appups()
    ensures { SaysOneAppup }
{}

/// A file has one fault at most.
pub fn a_file_has_one_fault()
    ensures { HasOneFault }
{}

/// No file both says an appup and has a fault.
pub fn no_file_says_an_appup_and_has_a_fault()
    ensures { NeverBoth }
{}

/// Each file says an appup or has a fault.
pub fn each_file_says_an_appup_or_has_a_fault()
    ensures { SaysOrFails }
{}

/// A term says an appup exactly where it is a term of this appup: of each instruction, with the defaults of what is left out,
/// the one that leaves nothing out.
pub fn a_term_says_an_appup_exactly_where_it_has_its_form()
    ensures { SaysItsTerm }
{}

/// An entry or an instruction of a term is none, or its outline is, exactly where it says no appup.
pub fn something_is_none_exactly_where_a_term_says_no_appup()
    ensures { HasItsPlace }
{}
