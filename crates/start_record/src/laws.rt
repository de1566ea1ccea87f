// Laws of the start text, over the definitions alone.
ghost use Rattle.std.specs.Prelude.{◌≡◌, ℕ, List};
ghost use Rattle.rel_store.specs.Layout.{slot_with};
ghost use Rattle.start_record.specs.Text.{Versions, AreVersions, start_text, SpellsStart};

/// Law: a start slot spells one start at most.
pub fn no_slot_spells_two_starts()
    ensures { (slot : List ℕ) (v w : Versions) → SpellsStart slot v → SpellsStart slot w → v ≡ w }
{}

/// Law: the slot in which a start of two versions is written spells it.
pub fn a_start_is_read_back()
    ensures { (v : Versions) → AreVersions v → SpellsStart (slot_with (start_text v)) v }
{}
