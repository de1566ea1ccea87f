// What a caller of a store says of crashes: its clauses follow from those of the store, with no word on bytes.
ghost use Rattle.std.specs.Prelude.{◌≡◌, ◌⊎◌, ℕ, List, [], ◌∷◌, ◌++◌, IfOk, IfErr, OnOk};
ghost use Rattle.rel_disk.specs.Moments.{LeavesOnly};
ghost use Rattle.rel_store.specs.Records.{Stands};
ghost use Rattle.rel_store.specs.State.{disk_in, records_in, text_in, IsSettled};
ghost use Rattle.rel_store.specs.declared.error.StoreError.TheVariants.{Device, NoMemory};

use rel_disk::Disk;
use rel_store::{Store, StoreError};
use std::alloc::Global;

// Adds two records. A crash at any moment leaves none of them, the first, or both.
pub(crate) fn append_both<D: Disk>(
    store: &mut Store<D>,
    alloc: Global,
    a: &[u8],
    b: &[u8],
) -> Result<(), StoreError>
    requires { IsSettled D.seen D.may_leave store.old }
    ensures settled { OnOk result (IsSettled D.seen D.may_leave store.new) }
    ensures both { OnOk result
        (records_in store.new ≡ records_in store.old ++ a.now ∷ [] ++ b.now ∷ []) }
    ensures any_moment { LeavesOnly D.moment D.left_since (disk_in store.old) (disk_in store.new)
        (λ c.
        Stands (records_in store.old) (text_in D.seen store.old) c
        ⊎ Stands (records_in store.old ++ a.now ∷ []) (text_in D.seen store.old) c
        ⊎ Stands (records_in store.old ++ a.now ∷ [] ++ b.now ∷ []) (text_in D.seen store.old) c) }
{
    store.append(alloc, a)?;
    store.append(alloc, b)
}

// Opens a disk on which each crash leaves a store with these records or with those: it has the one or the other.
pub(crate) fn reopen<D: Disk>(alloc: Global, disk: D) -> Result<Store<D>, (StoreError, D)>
    ghost known: { List (List ℕ) × List (List ℕ) × List ℕ }
    requires { (c : List ℕ) → D.may_leave disk c → Stands known.0 known.2 c
        ⊎ Stands known.1 known.2 c }
    ensures settled { IfOk result (IsSettled D.seen D.may_leave) }
    ensures records { IfOk result
        (λ store. (records_in store ≡ known.0) ⊎ (records_in store ≡ known.1)) }
    ensures refused { IfErr result (λ e. (e.0 ≡ Device) ⊎ (e.0 ≡ NoMemory)) }
{
    Store::open_disk(alloc, disk)
}
