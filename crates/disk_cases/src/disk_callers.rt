// What a caller of a disk says of crashes: its clauses follow from those of the trait.
ghost use Rattle.std.specs.Prelude.{◌≡◌, ◌++◌, length, take, IfOk, IfErr};
ghost use Rattle.rel_disk.specs.Damage.{Only};
ghost use Rattle.rel_disk.specs.Moments.{LeavesOnly, HasFailed};

use rel_disk::{DeviceFault, Disk};

// Writes after the end, and hands the disk back at each refusal.
pub(crate) fn append<D: Disk>(disk: D, bytes: &[u8]) -> Result<D, (DeviceFault, D)>
    requires { Only (D.seen disk) (D.may_leave disk) }
    ensures added { IfOk result (λ after. D.seen after ≡ D.seen disk ++ bytes.now) }
    ensures durable { IfOk result (λ after. Only (D.seen after) (D.may_leave after)) }

    // At each moment a crash leaves what was there, with or without more after it.
    ensures kept { IfOk result
        (λ after. LeavesOnly D.moment D.left_since disk after
        (λ c. take (length (D.seen disk)) c ≡ D.seen disk)) }
    ensures kept_at_err { IfErr result
        (λ e. LeavesOnly D.moment D.left_since disk e.1
        (λ c. take (length (D.seen disk)) c ≡ D.seen disk)) }
    ensures cause { IfErr result (λ e. HasFailed (D.failures disk) (D.failures e.1)) }
{
    let mut disk = disk;
    let Ok(end) = disk.len() else {
        return Err((DeviceFault, disk));
    };
    if disk.write_at(end, bytes).is_err() || disk.sync().is_err() {
        return Err((DeviceFault, disk));
    }
    Ok(disk)
}
