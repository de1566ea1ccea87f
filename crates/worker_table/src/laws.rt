//! A law of the terms themselves, whatever compares them. The function does nothing: its contract is the law.
ghost use Rattle.worker_table.specs.Same.{SameAreEqual};

/// Two terms are taken as the same exactly where they are equal.
pub fn same_terms_are_equal()
    ensures { SameAreEqual }
{}
