//! Laws of the files and their terms, whatever reads them. Each function does nothing: its contract is the law.
ghost use Rattle.mod_table.specs.Laws.{SaysOneTable, HasOneFault, NeverBoth, SaysOrFails, TablesAreRead};

/// No file says two tables.
pub fn no_file_says_two_tables()
    ensures { SaysOneTable }
{}

/// A file has one fault at most.
pub fn a_file_has_one_fault()
    ensures { HasOneFault }
{}

/// No file both says a table and has a fault.
pub fn no_file_says_a_table_and_has_a_fault()
    ensures { NeverBoth }
{}

/// Each file says a table or has a fault.
pub fn each_file_says_a_table_or_has_a_fault()
    ensures { SaysOrFails }
{}

/// A term says a table exactly where it has the form of that table.
pub fn a_term_says_a_table_exactly_where_it_has_its_form()
    ensures { TablesAreRead }
{}
