//! Laws of the files and their terms, whatever reads them. Each function does nothing: its contract is the law.
ghost use Rattle.rel_files.specs.AppLaws.{SaysOneApp, HasOneFault, NeverBoth, SaysOrFails, ApplicationsAreRead};

/// No file says two applications.
pub fn no_file_says_two_applications()
    ensures { SaysOneApp }
{}

/// A file has one fault at most.
pub fn a_file_has_one_fault()
    ensures { HasOneFault }
{}

/// No file both says an application and has a fault.
pub fn no_file_says_an_application_and_has_a_fault()
    ensures { NeverBoth }
{}

/// Each file says an application or has a fault.
pub fn each_file_says_an_application_or_has_a_fault()
    ensures { SaysOrFails }
{}

/// A term says an application exactly where it has the form of that application.
pub fn a_term_says_an_application_exactly_where_it_has_its_form()
    ensures { ApplicationsAreRead }
{}
