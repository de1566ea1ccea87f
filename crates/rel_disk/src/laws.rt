// Laws of the words that the contracts are written in, each on a function that does nothing.
ghost use Rattle.std.specs.Prelude.{◌≡◌, ◌↔◌, ◌∷◌, List, ℕ, length};
ghost use Rattle.rel_disk.specs.Calls.{Call, wrote, cut_to, synced, content};
ghost use Rattle.rel_disk.specs.Damage.{Torn, Cut, Follows, Within, Only};
ghost use Rattle.rel_disk.specs.Images.{Image};
ghost use Rattle.rel_disk.specs.Places.{KeepsOutside, KeepsFront, Survives};

use crate::Disk;

/// The damage of a write and of a cut, stated by places: only the bytes that are written, or cut off, can change.
pub fn damage_by_places()
    ensures write { (at n : ℕ) (old new : List ℕ) → Torn at n old new ↔ KeepsOutside at n old new }
    ensures cut { (n : ℕ) (old new : List ℕ) → Cut n old new ↔ KeepsFront n old new }
{}

/// The images that single calls compose are exactly those that the ranges written since the last sync, and the smallest
/// length since then, allow, over the bytes that the disk began with.
pub fn images_by_places()
    ensures { (first : List ℕ) (calls : List Call) (image : List ℕ) → Image first calls image
        ↔ Survives first calls image }
{}

/// On any disk the damage of calls adds up to these images.
pub fn damage_adds_up<D: Disk>()
    ensures write { (first : List ℕ) (calls : List Call) (at : ℕ) (bytes : List ℕ) (old new : D)
        → Within (Image first calls) (D.may_leave old)
        → Follows (Torn at (length bytes)) (D.may_leave old) (D.may_leave new)
        → Within (Image first (wrote at bytes ∷ calls)) (D.may_leave new) }
    ensures cut { (first : List ℕ) (calls : List Call) (len : ℕ) (old new : D)
        → Within (Image first calls) (D.may_leave old)
        → Follows (Cut len) (D.may_leave old) (D.may_leave new)
        → Within (Image first (cut_to len ∷ calls)) (D.may_leave new) }
    ensures sync { (first : List ℕ) (calls : List Call) (old new : D)
        → D.seen old ≡ content first calls
        → Only (D.seen old) (D.may_leave new)
        → Within (Image first (synced ∷ calls)) (D.may_leave new) }
{}
