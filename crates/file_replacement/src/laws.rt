//! What a crash leaves of a replacement. Each function does nothing: its contract is the law.
ghost use Rattle.file_replacement.specs.Laws.{LeavesOldOrNew, LeavesNew};

/// At each moment of a replacement, also after a call that failed and the removal of the new file, a crash leaves at the path
/// what was there before or the new text, whole.
pub fn a_crash_leaves_the_old_text_or_the_new()
    ensures { LeavesOldOrNew }
{}

/// After the last call of a replacement a crash leaves the new text.
pub fn a_replaced_file_has_the_new_text()
    ensures { LeavesNew }
{}
