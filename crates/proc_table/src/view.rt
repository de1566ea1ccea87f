//! What a seat knows.
ghost use Rattle.std.specs.Prelude.{ℕ, Bool, List, Option};
ghost use Rattle.std.specs.Coded.{coded_list, coded×, coded_ℕ, coded_option};
ghost use Rattle.proc_table.specs.Parts.{Part, Guest};
ghost use Rattle.proc_table.specs.Codes.{parts_code, guest_code};

use std::marker::Model;

/// What a seat at the table knows. No value of it is made.
pub struct View {
    /// 0 for the handler, else the number of the pass.
    pub ghost number: { ℕ },
    /// How many passes the handler has made.
    pub ghost count: { ℕ },
    /// The handler's: the numbers of the passes that it made and that weren't taken back. One that met another stays among
    /// them.
    pub ghost lent: { List ℕ } by { coded_list coded_ℕ },
    /// What it knows of each slot.
    pub ghost parts: { List Part } by { parts_code },
    /// What each take found: the slot, and its word, 0 where the seat got it.
    pub ghost found: { List (ℕ × ℕ) } by { coded_list (coded× coded_ℕ coded_ℕ) },
    /// The pass that was joined last, until the table was asked about it.
    pub ghost guest: { Option Guest } by { coded_option guest_code },
    /// Whether the view was joined to another.
    pub ghost spent: { Bool },
}

impl Model for View {
    ghost use base.Fml.{ftrue};

    ghost also_owns = { λ v. ftrue };
}
