//! A disk that crashes, and disks in memory that show it.
//!
//! [`Disk`] says what a caller may rest on. Until the next sync that succeeds, a crash may leave any bytes in each range
//! that was written since the last one, and from the smallest length on that the disk had since then; its length may be
//! any from that length on. All other bytes stay. After a sync that succeeded a crash leaves what a read gives. A call
//! that failed may have had any part of its effect, and the disk has counted a failure. The clauses speak of every
//! moment, also of those within a call.
//!
//! [`MemDisk`] is exactly such a disk, with a bound on its bytes and on a log of its calls. [`FailDisk`] fails one call of
//! another disk and goes on. [`StopDisk`] stops at a call, and gives images that a crash then leaves. That the damage of
//! single calls adds up to the disk of the second sentence is a law: [`images_by_places`] and [`damage_adds_up`].
//!
//! Not claimed: that a real file is such a disk, and when a real device fails.
//!
//! Only tested: the texts of errors. Trusted: the toolchain and `thiserror`.
#![tactic(auto)]

mod disk;
mod fail_disk;
mod faulty_disk;
mod laws;
mod log;
mod mem_disk;
mod pick;
mod plan;
mod stop_disk;

pub use disk::{DeviceFault, Disk};
pub use fail_disk::FailDisk;
pub use laws::{damage_adds_up, damage_by_places, images_by_places};
pub use mem_disk::MemDisk;
pub use pick::Pick;
pub use stop_disk::StopDisk;
