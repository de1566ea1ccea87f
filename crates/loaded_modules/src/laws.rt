//! A law of what is loaded. The function does nothing: its contract is the law.
ghost use Rattle.loaded_modules.specs.Laws.{FoundAsListed};

/// The two views that contracts have of what is loaded agree: what is found under a name is what is listed under it.
pub fn what_is_loaded_is_listed()
    ensures { FoundAsListed }
{}
