//! Laws of what a script fetches, and of how a row is cut, above their definitions. Each function does nothing: its contract is
//! the law.
ghost use Rattle.relup_row.specs.Laws.{FetchesOnce, FetchesMentioned, FetchesFromTarget, CutsIntoLongestBlocks};

/// No module is fetched twice for being mentioned more than once. A `load_object_code` that an appup has itself stands beside that.
pub fn no_module_is_fetched_twice()
    ensures { FetchesOnce }
{}

/// The modules that are mentioned are fetched, and no others.
pub fn mentioned_modules_are_fetched()
    ensures { FetchesMentioned }
{}

/// What is fetched is of an application of the target, in its version, and each of the modules is one of its own: where the
/// applications of the target have names of their own.
pub fn modules_are_fetched_from_the_target()
    ensures { FetchesFromTarget }
{}

/// A row is cut into its blocks and single instructions, in its order. All updates and loads of modules stand in blocks, and no
/// block stands right after another one.
pub fn a_row_is_cut_into_the_longest_blocks()
    ensures { CutsIntoLongestBlocks }
{}
