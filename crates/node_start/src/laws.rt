//! Laws of what a boot starts. Each function does nothing: its contract is the law.
ghost use Rattle.node_start.specs.Laws.{CheckedStarts};

/// Below a supervisor that passed the tests of a release nothing is wrong, and as many processes start there as were counted.
pub fn a_release_that_passed_the_tests_starts()
    ensures { CheckedStarts }
{}
