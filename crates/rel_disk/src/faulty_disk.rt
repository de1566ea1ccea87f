// A disk of which some calls fail, to show what its callers make of it.
ghost use Rattle.std.specs.Prelude.{◌≡◌, ◌≢◌, ◌⊎◌, ◌+◌, ◌≤◌, ◌/◌, length, take, slice_range, IsErr, IfOk, OnOk};
ghost use Rattle.rel_disk.specs.Damage.{overwritten, Torn, Cut, Follows, Within, Only};
ghost use Rattle.rel_disk.specs.Moments.{Elapses, MaySync, HasFailed};
ghost use Rattle.rel_disk.specs.FaultyDisk.{all_failures, refused_after, TakesTurn};
ghost use Rattle.rel_disk.specs.declared.plan.Turn.TheVariants.{Passes, FailsInPart, Stops};

use crate::plan::{Plan, Turn};
use crate::{DeviceFault, Disk};

/// A disk of which the calls that a plan names fail. Each call that answers a `Result` has its turn. All others are those of the disk
/// within.
#[derive(Drop)]
pub struct FaultyDisk<D: Disk, P: Plan> {
    /// The disk within.
    pub disk: D,
    /// Which calls fail.
    pub plan: P,
    /// How many calls have failed so, up to 2^64 - 1.
    pub refused: u64,
}

impl<D: Disk, P: Plan> Disk for FaultyDisk<D, P> {
    ghost seen = { λ f. D.seen f.disk };

    ghost may_leave = { λ f. D.may_leave f.disk };

    ghost moment = { λ f. D.moment f.disk };

    ghost left_since = { λ f. D.left_since f.disk };

    ghost syncs = { λ f. D.syncs f.disk };

    ghost failures = { all_failures D.failures };

    ghost reads_an_image = { λ f. D.reads_an_image f.disk };

    ghost counts_now = { λ f. D.counts_now f.disk };

    ghost only_now = { λ f. D.only_now f.disk };

    fn len(&mut self) -> Result<u64, DeviceFault>
        ensures turn { TakesTurn P.turn_of P.after_turn D.failures self.old self.new
            (IsErr result) }
        ensures nothing { P.turn_of self.old.plan ≢ Passes → self.new.disk ≡ self.old.disk }

        // As of every disk.
        ensures value { IfOk result (λ n. n ≡ length (D.seen self.old.disk)) }
        ensures same { D.seen self.new.disk ≡ D.seen self.old.disk }
        ensures crash { Within (D.may_leave self.old.disk) (D.may_leave self.new.disk) }
        ensures time { Elapses (D.moment self.old.disk) (D.moment self.new.disk)
            (D.left_since self.old.disk) (D.left_since self.new.disk) (D.may_leave self.new.disk) }
        ensures unsynced { D.syncs self.new.disk ≡ D.syncs self.old.disk }
        ensures counted { all_failures D.failures self.old ≤ all_failures D.failures self.new }
        ensures cause { IsErr result
            → HasFailed (all_failures D.failures self.old) (all_failures D.failures self.new) }
    {
        match take_turn(&mut self.plan, &mut self.refused) {
            Turn::Passes => self.disk.len(),
            _ => Err(DeviceFault),
        }
    }

    fn read(&mut self, at: u64, buf: &mut [u8]) -> Result<(), DeviceFault>
        requires { at + length buf.old ≤ length (D.seen self.old.disk) }
        ensures turn { TakesTurn P.turn_of P.after_turn D.failures self.old self.new
            (IsErr result) }
        ensures nothing { P.turn_of self.old.plan ≢ Passes → self.new.disk ≡ self.old.disk }

        // As of every disk.
        ensures bytes { OnOk result
            (buf.new ≡ slice_range (D.seen self.old.disk) at (at + length buf.old)) }
        ensures same { D.seen self.new.disk ≡ D.seen self.old.disk }
        ensures crash { Within (D.may_leave self.old.disk) (D.may_leave self.new.disk) }
        ensures time { Elapses (D.moment self.old.disk) (D.moment self.new.disk)
            (D.left_since self.old.disk) (D.left_since self.new.disk) (D.may_leave self.new.disk) }
        ensures unsynced { D.syncs self.new.disk ≡ D.syncs self.old.disk }
        ensures counted { all_failures D.failures self.old ≤ all_failures D.failures self.new }
        ensures cause { IsErr result
            → HasFailed (all_failures D.failures self.old) (all_failures D.failures self.new) }
    {
        match take_turn(&mut self.plan, &mut self.refused) {
            Turn::Passes => self.disk.read(at, buf),
            _ => Err(DeviceFault),
        }
    }

    fn write_at(&mut self, at: u64, bytes: &[u8]) -> Result<(), DeviceFault>
        requires { at ≤ length (D.seen self.old.disk) }
        ensures turn { TakesTurn P.turn_of P.after_turn D.failures self.old self.new
            (IsErr result) }
        ensures in_part { P.turn_of self.old.plan ≡ FailsInPart
            → HasFailed (D.failures self.old.disk) (D.failures self.new.disk)
            ⊎ (D.seen self.new.disk ≡ overwritten at (take ((length bytes.now + 1) / 2) bytes.now)
            (D.seen self.old.disk)) }
        ensures half { P.turn_of self.old.plan ≡ Stops
            → HasFailed (D.failures self.old.disk) (D.failures self.new.disk)
            ⊎ (D.seen self.new.disk ≡ overwritten at (take (length bytes.now / 2) bytes.now)
            (D.seen self.old.disk)) }

        // As of every disk.
        ensures written { OnOk result
            (D.seen self.new.disk ≡ overwritten at bytes.now (D.seen self.old.disk)) }
        ensures part { Torn at (length bytes.now) (D.seen self.old.disk) (D.seen self.new.disk) }
        ensures crash { Follows (Torn at (length bytes.now)) (D.may_leave self.old.disk)
            (D.may_leave self.new.disk) }
        ensures time { Elapses (D.moment self.old.disk) (D.moment self.new.disk)
            (D.left_since self.old.disk) (D.left_since self.new.disk) (D.may_leave self.new.disk) }
        ensures unsynced { D.syncs self.new.disk ≡ D.syncs self.old.disk }
        ensures counted { all_failures D.failures self.old ≤ all_failures D.failures self.new }
        ensures cause { IsErr result
            → HasFailed (all_failures D.failures self.old) (all_failures D.failures self.new) }
    {
        match take_turn(&mut self.plan, &mut self.refused) {
            Turn::Passes => self.disk.write_at(at, bytes),
            Turn::Fails => Err(DeviceFault),
            Turn::FailsInPart => {
                let _ = self.disk.write_at(at, &bytes[..bytes.len().div_ceil(2)]);
                Err(DeviceFault)
            }
            Turn::Stops => {
                let _ = self.disk.write_at(at, &bytes[..bytes.len() / 2]);
                Err(DeviceFault)
            }
        }
    }

    fn cut(&mut self, len: u64) -> Result<(), DeviceFault>
        requires { len ≤ length (D.seen self.old.disk) }
        ensures turn { TakesTurn P.turn_of P.after_turn D.failures self.old self.new
            (IsErr result) }
        ensures in_part { P.turn_of self.old.plan ≡ FailsInPart
            → HasFailed (D.failures self.old.disk) (D.failures self.new.disk)
            ⊎ (D.seen self.new.disk ≡ take len (D.seen self.old.disk)) }
        ensures nothing { P.turn_of self.old.plan ≡ Stops → self.new.disk ≡ self.old.disk }

        // As of every disk.
        ensures cut { OnOk result (D.seen self.new.disk ≡ take len (D.seen self.old.disk)) }
        ensures part { Cut len (D.seen self.old.disk) (D.seen self.new.disk) }
        ensures crash { Follows (Cut len) (D.may_leave self.old.disk) (D.may_leave self.new.disk) }
        ensures time { Elapses (D.moment self.old.disk) (D.moment self.new.disk)
            (D.left_since self.old.disk) (D.left_since self.new.disk) (D.may_leave self.new.disk) }
        ensures unsynced { D.syncs self.new.disk ≡ D.syncs self.old.disk }
        ensures counted { all_failures D.failures self.old ≤ all_failures D.failures self.new }
        ensures cause { IsErr result
            → HasFailed (all_failures D.failures self.old) (all_failures D.failures self.new) }
    {
        match take_turn(&mut self.plan, &mut self.refused) {
            Turn::Passes => self.disk.cut(len),
            Turn::FailsInPart => {
                let _ = self.disk.cut(len);
                Err(DeviceFault)
            }
            _ => Err(DeviceFault),
        }
    }

    fn sync(&mut self) -> Result<(), DeviceFault>
        ensures turn { TakesTurn P.turn_of P.after_turn D.failures self.old self.new
            (IsErr result) }
        ensures in_part { P.turn_of self.old.plan ≡ FailsInPart
            → HasFailed (D.failures self.old.disk) (D.failures self.new.disk)
            ⊎ Only (D.seen self.old.disk) (D.may_leave self.new.disk) }
        ensures nothing { P.turn_of self.old.plan ≡ Stops → self.new.disk ≡ self.old.disk }

        // As of every disk.
        ensures durable { OnOk result (Only (D.seen self.old.disk) (D.may_leave self.new.disk)) }
        ensures same { OnOk result (D.seen self.new.disk ≡ D.seen self.old.disk) }
        ensures crash { Within (D.may_leave self.old.disk) (D.may_leave self.new.disk) }
        ensures time { Elapses (D.moment self.old.disk) (D.moment self.new.disk)
            (D.left_since self.old.disk) (D.left_since self.new.disk) (D.may_leave self.new.disk) }
        ensures synced { OnOk result (D.syncs self.new.disk ≡ D.syncs self.old.disk + 1) }
        ensures effect { MaySync (D.syncs self.old.disk) (D.syncs self.new.disk)
            (Only (D.seen self.old.disk) (D.may_leave self.new.disk)) }
        ensures counted { all_failures D.failures self.old ≤ all_failures D.failures self.new }
        ensures cause { IsErr result
            → HasFailed (all_failures D.failures self.old) (all_failures D.failures self.new) }
    {
        match take_turn(&mut self.plan, &mut self.refused) {
            Turn::Passes => self.disk.sync(),
            Turn::FailsInPart => {
                let _ = self.disk.sync();
                Err(DeviceFault)
            }
            _ => Err(DeviceFault),
        }
    }

    fn failures(&self) -> u64 {
        self.disk.failures().saturating_add(self.refused)
    }
}

// Counts a call, and it as failed where the plan fails it, and says what becomes of it.
fn take_turn<P: Plan>(plan: &mut P, refused: &mut u64) -> Turn
    ensures turn { result ≡ P.turn_of plan.old }
    ensures plan { plan.new ≡ P.after_turn plan.old }
    ensures refused { refused.new ≡ refused_after (P.turn_of plan.old) refused.old }
{
    let turn = plan.turn();
    if !matches!(turn, Turn::Passes) {
        *refused = refused.saturating_add(1);
    }
    turn
}
