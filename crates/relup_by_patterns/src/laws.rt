//! Laws of plain releases. Each function does nothing: its contract is the law.
ghost use Rattle.relup_by_patterns.specs.Laws.{EndsAtNoPattern, AsksEachVersion, StaysWellFormed};

/// The translation of a plain release never ends at a regular expression.
pub fn no_translation_of_a_plain_release_ends_at_a_pattern()
    ensures { EndsAtNoPattern }
{}

/// Each version that another release has of an application, other than its own, is asked.
pub fn each_version_of_an_application_is_asked()
    ensures { AsksEachVersion }
{}

/// The names in a plain release are names, and its versions are versions, also in its appups, where it is so of the release.
pub fn a_plain_release_stays_well_formed()
    ensures { StaysWellFormed }
{}
