//! Laws of libraries and of their terms, whatever makes them. Each function does nothing: its contract is the law.
ghost use Rattle.library.specs.Laws.{SaysOneLibrary, SameAreEqual};

/// A term is that of one library at most.
pub fn a_term_is_that_of_one_library()
    ensures { SaysOneLibrary }
{}

/// Two libraries are the same exactly where they are equal.
pub fn same_libraries_are_equal()
    ensures { SameAreEqual }
{}
