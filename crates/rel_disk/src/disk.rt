// A disk as its callers see it: what a read gives, and what a crash may leave.
ghost use Rattle.std.specs.Prelude.{◌≡◌, ◌+◌, ◌≤◌, List, ℕ, length, take, slice_range, IfOk, OnOk, IsErr};
ghost use Rattle.rel_disk.specs.Damage.{overwritten, Torn, Cut, Follows, Within, Only};
ghost use Rattle.rel_disk.specs.Moments.{Elapses, MaySync, HasFailed};

use thiserror::Error;

/// The device refused a call or failed in it. It says nothing of how much was done.
#[derive(Clone, Copy, Debug, PartialEq, Eq, Error)]
#[error("the device failed")]
pub struct DeviceFault;

/// A row of bytes that outlives a crash. Places and lengths are in bytes, from 0.
///
/// Until the next sync that succeeds, a crash may leave any bytes in each range that was written since the last one,
/// and from the smallest length on that the disk had since then; its length may be any from that length on. All
/// other bytes stay.
///
/// A call that answers `DeviceFault` may have had any part of its effect, on reads too. It counts a failure.
/// No call takes memory.
///
/// A disk need not be `Drop`: who takes one by value hands it back, beside each refusal too.
pub trait Disk {
    /// The bytes that a read gives.
    ghost seen: { Self → List ℕ };

    /// The images: what a crash now may leave.
    ghost may_leave: { Self → List ℕ → Type 0 };

    /// The moment, as a number that doesn't fall.
    ghost moment: { Self → ℕ };

    /// What a crash at some moment from this one on may have left, in a call or between two.
    ghost left_since: { Self → ℕ → List ℕ → Type 0 };

    /// How many syncs have taken effect, whatever they answered.
    ghost syncs: { Self → ℕ };

    /// How often the device has failed; at 2^64 - 1 the count stays.
    ghost failures: { Self → ℕ };

    /// The length of what a read gives.
    fn len(&mut self) -> Result<u64, DeviceFault>
        ensures value { IfOk result (λ n. n ≡ length (seen self.old)) }
        ensures same { seen self.new ≡ seen self.old }
        ensures crash { Within (may_leave self.old) (may_leave self.new) }
        ensures time { Elapses (moment self.old) (moment self.new)
            (left_since self.old) (left_since self.new) (may_leave self.new) }
        ensures unsynced { syncs self.new ≡ syncs self.old }
        ensures counted { failures self.old ≤ failures self.new }
        ensures cause { IsErr result → HasFailed (failures self.old) (failures self.new) };

    /// Fills the buffer with the bytes from `at` on. After a `DeviceFault` it may hold anything.
    fn read(&mut self, at: u64, buf: &mut [u8]) -> Result<(), DeviceFault>
        requires { at + length buf.old ≤ length (seen self.old) }
        ensures bytes { OnOk result
            (buf.new ≡ slice_range (seen self.old) at (at + length buf.old)) }
        ensures same { seen self.new ≡ seen self.old }
        ensures crash { Within (may_leave self.old) (may_leave self.new) }
        ensures time { Elapses (moment self.old) (moment self.new)
            (left_since self.old) (left_since self.new) (may_leave self.new) }
        ensures unsynced { syncs self.new ≡ syncs self.old }
        ensures counted { failures self.old ≤ failures self.new }
        ensures cause { IsErr result → HasFailed (failures self.old) (failures self.new) };

    /// Writes the bytes over what is there from `at` on, and past the end.
    fn write_at(&mut self, at: u64, bytes: &[u8]) -> Result<(), DeviceFault>
        requires { at ≤ length (seen self.old) }
        ensures written { OnOk result (seen self.new ≡ overwritten at bytes.now (seen self.old)) }
        ensures part { Torn at (length bytes.now) (seen self.old) (seen self.new) }
        ensures crash { Follows (Torn at (length bytes.now)) (may_leave self.old)
            (may_leave self.new) }
        ensures time { Elapses (moment self.old) (moment self.new)
            (left_since self.old) (left_since self.new) (may_leave self.new) }
        ensures unsynced { syncs self.new ≡ syncs self.old }
        ensures counted { failures self.old ≤ failures self.new }
        ensures cause { IsErr result → HasFailed (failures self.old) (failures self.new) };

    /// Cuts the disk to a length.
    fn cut(&mut self, len: u64) -> Result<(), DeviceFault>
        requires { len ≤ length (seen self.old) }
        ensures cut { OnOk result (seen self.new ≡ take len (seen self.old)) }
        ensures part { Cut len (seen self.old) (seen self.new) }
        ensures crash { Follows (Cut len) (may_leave self.old) (may_leave self.new) }
        ensures time { Elapses (moment self.old) (moment self.new)
            (left_since self.old) (left_since self.new) (may_leave self.new) }
        ensures unsynced { syncs self.new ≡ syncs self.old }
        ensures counted { failures self.old ≤ failures self.new }
        ensures cause { IsErr result → HasFailed (failures self.old) (failures self.new) };

    /// After one that takes effect, a crash leaves what a read gives. One that failed may have taken effect, or left reads with
    /// any of the images.
    fn sync(&mut self) -> Result<(), DeviceFault>
        ensures durable { OnOk result (Only (seen self.old) (may_leave self.new)) }
        ensures same { OnOk result (seen self.new ≡ seen self.old) }
        ensures crash { Within (may_leave self.old) (may_leave self.new) }
        ensures time { Elapses (moment self.old) (moment self.new)
            (left_since self.old) (left_since self.new) (may_leave self.new) }
        ensures synced { OnOk result (syncs self.new ≡ syncs self.old + 1) }
        ensures effect { MaySync (syncs self.old) (syncs self.new)
            (Only (seen self.old) (may_leave self.new)) }
        ensures counted { failures self.old ≤ failures self.new }
        ensures cause { IsErr result → HasFailed (failures self.old) (failures self.new) };

    /// How often the device has failed; at 2^64 - 1 the count stays.
    fn failures(&self) -> u64
        ensures { result ≡ failures self.now };

    /// What a read gives is one of the images.
    ghost reads_an_image: { (disk : Self) → may_leave disk (seen disk) };

    /// This moment's images are among those since an earlier one.
    ghost counts_now: { (disk : Self) (t : ℕ) (c : List ℕ) → t ≤ moment disk → may_leave disk c
        → left_since disk t c };

    /// Since this moment there are only this moment's.
    ghost only_now: { (disk : Self) (c : List ℕ) → left_since disk (moment disk) c
        → may_leave disk c };
}
