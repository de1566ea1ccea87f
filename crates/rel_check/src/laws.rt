//! Laws of the walk through a release, and of its names. Each function does nothing: its contract is the law.
ghost use Rattle.rel_check.specs.Laws.{DeeperFindsTheSame, WithinItselfIsTooDeep, NoneAgainWhereDistinct, FindsFirstAgain, EachHasItsTable, MissingIsNamed};

/// Where supervisors keep within a number of them in each other, a walk that may go deeper finds the same.
pub fn a_deeper_walk_finds_the_same()
    ensures { DeeperFindsTheSame }
{}

/// A supervisor within itself exceeds the limit on supervisors in each other.
pub fn a_supervisor_within_itself_is_too_deep()
    ensures { WithinItselfIsTooDeep }
{}

/// No name stands a second time exactly where names are distinct.
pub fn no_name_stands_again_where_they_are_distinct()
    ensures { NoneAgainWhereDistinct }
{}

/// The name that is reported as standing twice is the first that does, and its application the one where it stands a second time.
pub fn the_first_name_that_stands_again_is_reported()
    ensures { FindsFirstAgain }
{}

/// Where no module stands in two applications, each has its own table.
pub fn each_module_has_its_table()
    ensures { EachHasItsTable }
{}

/// A module that is reported as missing is the top of an application of the release, or that of a child in one of its tables.
pub fn a_missing_module_is_named_in_the_release()
    ensures { MissingIsNamed }
{}
