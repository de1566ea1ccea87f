//! Laws of the texts themselves, whatever reads them. Each function does nothing: its contract is the law, and the laws that
//! it calls are what it rests on.
ghost use Rattle.erl_term.specs.Laws.{EachTermStandsAlone, HasOneReading, HasOneFault, KeepsLimits, NeverBoth, ReadsOrFails};
ghost use Rattle.erl_term.specs.Lines.{PrintsOneLine};

pub use erl_token::laws::{items_tile_a_text, rows_stand_alone};

/// No text has two readings, whatever the limit on open brackets.
pub fn no_text_has_two_readings()
    ensures { HasOneReading }
{}

/// No text both reads and has a fault.
pub fn no_text_reads_and_has_a_fault()
    ensures { NeverBoth }
{}

/// Each text reads or has a fault.
pub fn each_text_reads_or_has_a_fault()
    ensures { ReadsOrFails }
{}

/// A text has one fault at most.
pub fn a_text_has_one_fault()
    ensures { HasOneFault }
{}

/// The bytes of a term that is read, from its first to its last, with a dot after them read as that term alone. So a term
/// is what its own bytes spell, whatever stands around it.
pub fn each_term_stands_alone()
    ensures { EachTermStandsAlone }
{
    rows_stand_alone();
}

/// What is read has atoms of at most 255 characters, and when it is printed at most one bracket more is open at once than
/// the limit allows in a text that is read.
pub fn what_is_read_keeps_limits()
    ensures { KeepsLimits }
{}

/// The text of a term has no newline.
pub fn a_term_is_printed_on_one_line()
    ensures { PrintsOneLine }
{}
