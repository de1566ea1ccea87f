// Laws of the bytes of a store, over the definitions alone.
ghost use Rattle.std.specs.Prelude.{◌≡◌, ℕ, List, Ok};
ghost use Rattle.rel_store.specs.Records.{records_of};
ghost use Rattle.rel_store.specs.Spelled.{IsSpelled, AreBytes};

/// Law: bytes that spell a store are read as its records, whatever stands after its closed gate.
pub fn what_is_spelled_is_read()
    ensures { (bytes : List ℕ) (bodies : List (List ℕ)) → IsSpelled bodies bytes
        → records_of bytes ≡ Ok bodies }
{}

/// Law: bytes are read as the records that they spell, and as no others.
pub fn nothing_else_is_read()
    ensures { (bytes : List ℕ) (bodies : List (List ℕ)) → AreBytes bytes
        → records_of bytes ≡ Ok bodies → IsSpelled bodies bytes }
{}
