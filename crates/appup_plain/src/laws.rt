//! Laws of plain entries. Each function does nothing: its contract is the law.
ghost use Rattle.appup_plain.specs.Laws.{FindsTheSame, FindsNothingMore};

/// Of a version that is asked, `entry_for` finds the instructions in plain entries that `entry_matching` finds in those of the
/// appup.
pub fn plain_entries_have_the_same_instructions()
    ensures { FindsTheSame }
{}

/// Of a version that no entry of the appup is for, plain entries have none, and it isn't a regular expression that is to blame.
pub fn plain_entries_have_no_others()
    ensures { FindsNothingMore }
{}
