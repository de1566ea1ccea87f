//! Where each slot lies in the base table.
ghost use Rattle.std.specs.Prelude.{◌<◌};
ghost use Rattle.proc_table.specs.Agrees.{slots};
ghost use Rattle.proc_table.specs.Places.{LiesAt};

/// The place of the slot, for its word and for its value. Eight words lie in one line of a processor's cache, and a node begins
/// its processes in the lowest slots. Here the lowest 32 lie in lines of their own, and neighbours 32 places apart.
pub(crate) fn place_of(slot: usize) -> usize
    requires { slot < slots }
    ensures { LiesAt slot result }
{
    slot % 8 * 32 + slot / 8 % 4 * 8 + slot / 32
}
