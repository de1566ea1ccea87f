// A node is read from its disk again.
//
// The start record is that of the permanent release between two calls of a handler that isn't dead (`HasStarted`), and at each
// moment that of the permanent release of the prefix, or of the one that was permanent when the node last ran
// (`HasRecentStart`): a boot repairs it.
//
// A boot has a one-shot as the current release, and has taken it away from the disk by a record of its own before it is `Ok`
// (`only`, `acknowledged`): no later boot starts it. A store for which a list with a one-shot stands has room for that record
// (`HasBootSpace`). A list with a one-shot is never compacted (`may_be_compacted`), and a store in which a handler writes one
// is of format 2 (`format`).
ghost use Rattle.std.specs.Prelude.{◌≡◌, ◌⊎◌, ◌↔◌, ℕ, ◌≤◌, List, false, IsTrue, IfOk, IfErr, OnOk, MatchResult};
ghost use Rattle.rel_disk.specs.Moments.{LeavesOnly};
ghost use Rattle.rel_list.specs.Releases.{Releases, has_one_shot};
ghost use Rattle.rel_list.specs.Event.{recorded};
ghost use Rattle.rel_store.specs.Changed.{LeavesOthers};
ghost use Rattle.rel_store.specs.Contents.{HasOnlyRead};
ghost use Rattle.rel_store.specs.Layout.{format_of};
ghost use Rattle.rel_handler.specs.Booting.{IsRead, IsOpened, IsBootOf, IsBootRecord, IsInBootRecord, BootRecordRefused, IsBooted, IsOldOrTaken, IsOldOrBooted, Leaves, WritesNoStart, FinishRefused};
ghost use Rattle.node_store.specs.Events.{EventLog, IsOfPrefix, StoreState, IsCrashImageOf};
ghost use Rattle.node_store.specs.Image.{HasBootSpace, IsImageOf, IsImageWithExtent, IsStarted, IsLeftByBoot};
ghost use Rattle.rel_handler.specs.Moments.{BootsTo, HasRead, IsSynced, KeepsStore};
ghost use Rattle.rel_handler.specs.Refusals.{BootRefused, reported_boot, IsOpenError};
ghost use Rattle.node_store.specs.State.{disk_in, disk_of, extent_in, format_in, list_in, is_dead, start_in, HasStarted, IsReady, IsSound};
ghost use Rattle.start_record.specs.Text.{versions_of, SpellsStart};

use crate::{BootError, Handler};
use node_store::{NodeStore, start_of};
use record_writer::change_body;
use rel_disk::Disk;
use rel_list::Event;
use rel_records::read_list;
use rel_store::{Store, StoreError};
use start_record::{Start, StartError, read_start};
use std::alloc::Global;

/// Boots the node on a disk: its list is that of the store's records, as a boot makes it. Syncs the disk, reads each record
/// once, and then the start record. It writes a record that takes a one-shot away, where the list has one, so that no later
/// boot starts it; and then the start record, where it isn't that of the permanent release.
///
/// Refusals: `Device`, `NoMemory`, `NotAStore`, `Damaged`, and `BadRecord` with the number of the first record that the list
/// so far can't take, or of the last one where there is no room to take a one-shot away. A disk that stands for a list is
/// refused for memory or the device alone.
pub fn boot<D: Disk>(alloc: Global, disk: D) -> Result<Handler<D>, (BootError, D)>
    ensures sound { IfOk result (IsSound D.seen D.may_leave) }
    ensures works { IfOk result (λ handler. is_dead handler ≡ false) }
    ensures format { IfOk result (λ handler. format_in handler ≡ format_of (D.seen disk)) }
    ensures image { OnOk result ((es : Releases) × IsImageOf (D.seen disk) es
        × (recorded es ≡ es)) }
    ensures acknowledged { IfOk result (λ handler. (c : List ℕ) → D.may_leave (disk_in handler) c
        → IsImageWithExtent c (list_in handler) (extent_in handler)) }

    // A disk that stands for a list is booted to what a boot makes of that list.
    ensures only { (es : Releases) → IsImageOf (D.seen disk) es
        → MatchResult result (IsBootOf (D.seen disk) es)
        (λ e. (e.0 ≡ BootError.Device) ⊎ (e.0 ≡ BootError.NoMemory)) }

    // A start record that is right is not written: nothing is, or the record alone that takes a one-shot away. After the boot
    // it is right (`sound`).
    ensures right { (es : Releases) → IsImageOf (D.seen disk) es → IsStarted es (D.seen disk)
        → IfOk result (λ handler. WritesNoStart D.Disk es disk (disk_in handler)) }

    // Whatever a crash left of a node is booted to the list of a prefix of its accepted events that holds every acknowledged
    // one.
    ensures recovers { (k : EventLog) → ((c : List ℕ) → D.may_leave disk c → IsOfPrefix k c)
        → MatchResult result (λ handler. BootsTo k (list_in handler))
        (λ e. (e.0 ≡ BootError.Device) ⊎ (e.0 ≡ BootError.NoMemory)) }

    // A crash in the call leaves what one before it would have left, or what a read gave with so much of what the boot writes.
    // From the first sync that takes effect on it leaves nothing but the latter.
    ensures any_moment { LeavesOnly D.moment D.left_since disk (disk_of result)
        (λ c. D.may_leave disk c ⊎ IsLeftByBoot (D.seen disk) c) }
    ensures synced { IsSynced D.Disk disk result }

    // A store whose events are known keeps them, with the boot's own after them or without.
    ensures stored { (s : StoreState) → ((c : List ℕ) → D.may_leave disk c → IsCrashImageOf s c)
        → KeepsStore D.Disk s disk (disk_of result) }

    // Where it is refused, and not by the device, nothing was written.
    ensures quiet { IfErr result (λ e. (e.0 ≡ BootError.Device)
        ⊎ HasOnlyRead D.seen D.may_leave D.moment D.left_since disk e.1) }

    ensures counted { D.failures disk ≤ D.failures (disk_of result) }
    ensures refused { IfErr result (λ e. BootRefused (D.seen disk) (D.failures disk)
        (D.failures e.1) e.0) }
{
    let mut node = match open(alloc, disk) {
        Ok(node) => node,
        Err(refusal) => return Err(refusal),
    };
    let body = match boot_record(alloc, &node) {
        Ok(body) => body,
        Err(error) => return Err((error, node.into_disk())),
    };
    match finish(alloc, &mut node, body) {
        Ok(()) => {
            node.dead = false;
            Ok(Handler { node })
        }
        Err(error) => Err((error, node.into_disk())),
    }
}

// Reads the node from a disk. It is dead until the boot has written what it has to.
fn open<D: Disk>(alloc: Global, disk: D) -> Result<NodeStore<D>, (BootError, D)>
    ensures opened { IfOk result (IsOpened D.Disk disk) }
    ensures format { IfOk result (λ node. format_in node ≡ format_of (D.seen disk)) }
    ensures only { (es : Releases) → IsImageOf (D.seen disk) es → MatchResult result
        (λ node. list_in node ≡ recorded es)
        (λ e. (e.0 ≡ BootError.Device) ⊎ (e.0 ≡ BootError.NoMemory)) }
    ensures any_moment { LeavesOnly D.moment D.left_since disk (disk_of result) (D.may_leave disk) }
    ensures synced { IsSynced D.Disk disk result }
    ensures quiet { IfErr result (λ e. (e.0 ≡ BootError.Device)
        ⊎ HasOnlyRead D.seen D.may_leave D.moment D.left_since disk e.1) }
    ensures counted { D.failures disk ≤ D.failures (disk_of result) }
    ensures refused { IfErr result (λ e. BootRefused (D.seen disk) (D.failures disk)
        (D.failures e.1) e.0) }
{
    match Store::open_disk(alloc, disk) {
        Ok(store) => match read_list(alloc, store.format(), store.records()) {
            Ok(list) => Ok(NodeStore {
                store,
                list,
                dead: true,
            }),
            Err(error) => Err((BootError::from(error), store.into_disk())),
        },
        Err((error, disk)) => Err((boot_error(error), disk)),
    }
}

// The body of the record by which the boot takes a one-shot away, where the list has one.
fn boot_record<D: Disk>(alloc: Global, node: &NodeStore<D>) -> Result<Option<String>, BootError>
    requires { IsRead D.seen D.may_leave node.now }
    ensures body { IfOk result (IsBootRecord (list_in node.now)) }
    ensures room { OnOk result (HasBootSpace (extent_in node.now) (list_in node.now)) }
    ensures refused { IfErr result (BootRecordRefused (extent_in node.now) (list_in node.now)) }
{
    if node.list.one_shot().is_none() {
        return Ok(None);
    }
    let body = change_body(alloc, &node.list, &Event::Boot)?;
    if !node.store.fits(body.len()) {
        let last = node.store.records().len() as u64;
        return Err(BootError::BadRecord(last));
    }
    Ok(Some(body))
}

// Takes a one-shot away, and writes the start record where it isn't that of the permanent release. Memory is asked for before
// the first write.
fn finish<D: Disk>(
    alloc: Global,
    node: &mut NodeStore<D>,
    body: Option<String>,
) -> Result<(), BootError>
    requires ready { IsReady D.seen D.may_leave node.old }
    requires recorded { recorded (list_in node.old) ≡ list_in node.old }
    requires body { IsBootRecord (list_in node.old) body }
    ensures leaves { Leaves D.Disk (IsOldOrBooted D.seen node.old)
        (disk_in node.old) (disk_in node.new) }
    ensures booted { OnOk result (IsBooted D.Disk node.old node.new) }
    ensures started { OnOk result (HasStarted D.may_leave node.new) }
    ensures right { OnOk result (IsStarted (list_in node.old) (D.seen (disk_in node.old))
        → WritesNoStart D.Disk (list_in node.old) (disk_in node.old) (disk_in node.new)) }
    ensures format { format_in node.new ≡ format_in node.old }
    ensures refused { IfErr result (FinishRefused D.Disk node.old node.new) }
{
    let Some(release) = node.list.permanent() else {
        unreachable!();
    };
    let start = start_of(alloc, release)?;
    let right = starts(alloc, node, &start)?;
    take_one_shot(alloc, node, body)?;
    if right {
        return Ok(());
    }
    node.commit_start(&start)?;
    Ok(())
}

// Takes a one-shot away by the record of the boot, where there is one: the record is appended, and the list is that after a
// boot.
fn take_one_shot<D: Disk>(
    alloc: Global,
    node: &mut NodeStore<D>,
    body: Option<String>,
) -> Result<(), BootError>
    requires ready { IsReady D.seen D.may_leave node.old }
    requires recorded { recorded (list_in node.old) ≡ list_in node.old }
    requires body { IsBootRecord (list_in node.old) body }
    ensures leaves { Leaves D.Disk (IsOldOrTaken D.seen node.old)
        (disk_in node.old) (disk_in node.new) }
    ensures others { LeavesOnly D.moment D.left_since (disk_in node.old) (disk_in node.new)
        (LeavesOthers (IsInBootRecord (D.seen (disk_in node.old)) (list_in node.old))
        (D.seen (disk_in node.old))) }
    ensures booted { OnOk result (IsBooted D.Disk node.old node.new) }
    ensures start { OnOk result (start_in D.seen node.new ≡ start_in D.seen node.old) }
    ensures free { has_one_shot (list_in node.old) ≡ false
        → disk_in node.new ≡ disk_in node.old }
    ensures format { format_in node.new ≡ format_in node.old }
    ensures refused { IfErr result (FinishRefused D.Disk node.old node.new) }
{
    let Some(body) = body else {
        return Ok(());
    };
    if node.store.reserve(alloc, body.len()).is_err() {
        return Err(BootError::NoMemory);
    }
    if node.list.accept(alloc, Event::Boot).is_err() {
        unreachable!();
    }
    if node.store.append(alloc, body.as_bytes()).is_err() {
        return Err(BootError::Device);
    }
    Ok(())
}

// Whether this start is that of the start record.
fn starts<D: Disk>(alloc: Global, node: &mut NodeStore<D>, start: &Start) -> Result<bool, BootError>
    requires { IsReady D.seen D.may_leave node.old }
    ensures read { HasRead D.Disk node.old node.new }
    ensures ready { OnOk result (IsReady D.seen D.may_leave node.new) }
    ensures value { IfOk result (λ is. IsTrue is
        ↔ SpellsStart (start_in D.seen node.old) (versions_of start.now)) }
    ensures format { format_in node.new ≡ format_in node.old }
    ensures refused { IfErr result (FinishRefused D.Disk node.old node.new) }
{
    match read_start(alloc, &mut node.store) {
        Ok(found) => Ok(is_same(&found, start)),
        Err(StartError::BadStart) => Ok(false),
        Err(StartError::NoMemory) => Err(BootError::NoMemory),
        Err(_) => Err(BootError::Device),
    }
}

// Whether two starts are of the same versions.
fn is_same(start: &Start, other: &Start) -> bool
    ensures { IsTrue result ↔ (versions_of start.now ≡ versions_of other.now) }
{
    start.erts.as_str() == other.erts.as_str() && start.vsn.as_str() == other.vsn.as_str()
}

// What a boot reports of a store that isn't opened.
fn boot_error(error: StoreError) -> BootError
    requires { IsOpenError error }
    ensures { result ≡ reported_boot error }
{
    match error {
        StoreError::NotAStore => BootError::NotAStore,
        StoreError::Damaged(at) => BootError::Damaged(at),
        StoreError::Device => BootError::Device,
        StoreError::NoMemory => BootError::NoMemory,
        StoreError::Exists | StoreError::Full | StoreError::MustReopen => unreachable!(),
    }
}
