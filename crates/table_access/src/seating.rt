//! Which seat, and at which table.
ghost use Rattle.std.specs.Prelude.{ℕ};
ghost use Rattle.atomic_table.specs.Seated.{TableId};
ghost use Rattle.table_access.specs.Seatings.{some_table};

use std::marker::Brand;

/// Which seat is lent, and at which table it sits. It exists in the proofs alone, which choose it where an access is made.
pub trait Seating {
    /// The seat that is lent.
    ghost name: { ℕ };
    /// The table.
    ghost table: { TableId };
}

impl Seating for Brand {
    ghost name = { 0 };

    ghost table = { some_table };
}
