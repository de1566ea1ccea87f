// What each call that changes a store does to its disk.
ghost use Rattle.std.specs.Prelude.{◌≤◌, ◌≡◌, ◌+◌, [], ◌∷◌, length, OnOk, IsErr};
ghost use Rattle.rel_disk.specs.Damage.{overwritten, Only};
ghost use Rattle.rel_disk.specs.Moments.{LeavesOnly, MaySync, HasFailed};
ghost use Rattle.rel_store.specs.Moments.{IsTornFrom, IsTornInSteps};

use rel_disk::{DeviceFault, Disk};

// Writes these bytes and syncs. Until it is done, a crash may leave any part of the write.
pub(crate) fn write_through<D: Disk>(disk: &mut D, at: u64, bytes: &[u8]) -> Result<(), DeviceFault>
    requires { at ≤ length (D.seen disk.old) }
    ensures written { OnOk result (D.seen disk.new ≡ overwritten at bytes.now (D.seen disk.old)) }
    ensures durable { OnOk result (Only (D.seen disk.new) (D.may_leave disk.new)) }
    ensures any_moment { LeavesOnly D.moment D.left_since disk.old disk.new
        (IsTornFrom (D.may_leave disk.old) at (length bytes.now)) }
    ensures synced { OnOk result (D.syncs disk.new ≡ D.syncs disk.old + 1) }
    ensures effect { MaySync (D.syncs disk.old) (D.syncs disk.new)
        (Only (overwritten at bytes.now (D.seen disk.old)) (D.may_leave disk.new)) }
    ensures counted { D.failures disk.old ≤ D.failures disk.new }
    ensures cause { IsErr result → HasFailed (D.failures disk.old) (D.failures disk.new) }
{
    disk.write_at(at, bytes)?;
    disk.sync()
}

// Writes these bytes and, once no crash can lose them, the one byte that makes them count.
pub(crate) fn write_and_commit<D: Disk>(
    disk: &mut D,
    at: u64,
    bytes: &[u8],
    mark: u64,
    value: u8,
) -> Result<(), DeviceFault>
    requires at { at ≤ length (D.seen disk.old) }
    requires mark { mark ≤ length (D.seen disk.old) }
    ensures written { OnOk result
        (D.seen disk.new ≡ overwritten mark (value ∷ []) (overwritten at bytes.now
        (D.seen disk.old))) }
    ensures durable { OnOk result (Only (D.seen disk.new) (D.may_leave disk.new)) }
    ensures any_moment { LeavesOnly D.moment D.left_since disk.old disk.new
        (IsTornInSteps (D.may_leave disk.old) at bytes.now mark (D.seen disk.old)) }
    ensures counted { D.failures disk.old ≤ D.failures disk.new }
    ensures cause { IsErr result → HasFailed (D.failures disk.old) (D.failures disk.new) }
{
    write_through(disk, at, bytes)?;
    write_through(disk, mark, &[value])
}
