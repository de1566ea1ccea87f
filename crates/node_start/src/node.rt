//! A node that has booted, and how it comes to be.
ghost use Rattle.std.specs.Prelude.{◌≡◌, ◌⊎◌, ℕ, ◌≤◌, List, false, IfOk, IfErr, MatchResult};
ghost use Rattle.rel_disk.specs.Moments.{LeavesOnly};
ghost use Rattle.rel_list.specs.Releases.{Releases};
ghost use Rattle.node_store.specs.Events.{EventLog, IsOfPrefix, StoreState, IsCrashImageOf};
ghost use Rattle.node_store.specs.Image.{IsImageOf, IsLeftByBoot};
ghost use Rattle.node_store.specs.State.{disk_in, list_in, is_dead, IsSound};
ghost use Rattle.rel_handler.specs.Moments.{BootsTo, IsSynced, KeepsStore};
ghost use Rattle.rel_handler.specs.Refusals.{BootRefused};
ghost use Rattle.node_processes.specs.Fresh.{fresh_processes};
ghost use Rattle.node_processes.specs.InMemory.{AreSound, processes_in};
ghost use Rattle.node_start.specs.Begun.{HaveJustBegun, fresh_beginnings};
ghost use Rattle.node_start.specs.Booting.{disk_after, handled, HasJustStarted, HasStopped, IsBootedFrom, IsLack};
ghost use Rattle.node_start.specs.Running.{RunsOnce};

use crate::start::{Started, start_running};
use loaded_modules::Loaded;
use node_processes::Processes;
use proc_table::{HandlerSeat, ProcTable};
use rel_disk::Disk;
use rel_handler::{BootError, Handler};
use std::alloc::{AllocError, Global};
use std::sync::Wait;
use sup_tree::Tree;

/// A node that has booted: its releases on their disk, and its processes. The fields are public, so that an installation can be
/// lent what it changes (`install_release` of the handler).
#[derive(Drop)]
pub struct Node<D: Disk> {
    /// The releases.
    pub handler: Handler<D>,
    /// The table in which the processes stand.
    pub table: ProcTable,
    /// The seat of the handler at the table.
    pub seat: HandlerSeat,
    /// The started applications.
    pub tree: Tree,
    /// The loaded modules.
    pub loaded: Loaded,
}

impl<D: Disk> Node<D> {
    /// The disk. The processes are gone then.
    pub fn into_disk(self) -> D
        ensures { result ≡ disk_in self.handler }
    {
        let Node {
            handler,
            table: _,
            seat: _,
            tree: _,
            loaded: _,
        } = self;
        handler.into_disk()
    }
}

/// Boots the node on a disk (OTP: init(3)). Its releases are those of the store's records, as a boot makes them; a one-shot is
/// taken away from the disk, and the start record is that of the permanent release. Then the release that runs is started, once
/// and in a new table: its applications in order, and the modules of all its libraries are loaded.
///
/// Refusals, with the disk handed back: `NotAStore`, `Damaged` with the place of the first damage, `Device`, `NoMemory`, and
/// `BadRecord` with the number of the first record that the list so far can't take, or of the last one where there is no room
/// to take a one-shot away.
pub fn boot<D: Disk, R: Wait>(rt: &R, alloc: Global, disk: D) -> Result<Node<D>, (D, BootError)>
    // The list is that of the disk, as a boot makes it, and a crash leaves just that from now on, with its start record.
    ensures booted { IfOk result (λ node. IsBootedFrom D.Disk disk node.handler) }

    // Exactly the processes of the release that runs have begun in the node's table, each once, and exactly its modules are
    // loaded.
    ensures started { IfOk result HasJustStarted }

    // No later boot starts that release as a one-shot, whenever a crash comes.
    ensures once { IfOk result (λ node. RunsOnce D.may_leave node.handler) }

    // A disk that stands for a list is refused for memory or the device alone.
    ensures only { (es : Releases) → IsImageOf (D.seen disk) es → IfErr result (λ e. IsLack e.1) }

    // Whatever a crash left of a node is booted to the list of a prefix of its accepted events that holds every acknowledged
    // one.
    ensures recovers { (k : EventLog) → ((c : List ℕ) → D.may_leave disk c → IsOfPrefix k c)
        → MatchResult result (λ node. BootsTo k (list_in node.handler)) (λ e. IsLack e.1) }

    // At each moment, as of the boot of a handler.
    ensures any_moment { LeavesOnly D.moment D.left_since disk (disk_after result)
        (λ c. D.may_leave disk c ⊎ IsLeftByBoot (D.seen disk) c) }
    ensures synced { IsSynced D.Disk disk (handled result) }
    ensures stored { (s : StoreState) → ((c : List ℕ) → D.may_leave disk c → IsCrashImageOf s c)
        → KeepsStore D.Disk s disk (disk_after result) }

    // Where it is refused, and not by the device, nothing was written, or all that a boot writes: memory was refused to the
    // processes then.
    ensures stopped { IfErr result (HasStopped D.Disk disk) }

    ensures counted { D.failures disk ≤ D.failures (disk_after result) }
    ensures refused { IfErr result (λ e. BootRefused (D.seen disk) (D.failures disk)
        (D.failures e.0) e.1) }
{
    match rel_handler::boot(alloc, disk) {
        Ok(handler) => match start_node(rt, alloc, handler) {
            Ok(node) => Ok(node),
            Err(disk) => Err((disk, BootError::NoMemory)),
        },
        Err((error, disk)) => Err((disk, error)),
    }
}

/// The node of a handler that has just been made or booted: the release that runs is started, once and in a new table. It is
/// refused for memory alone, and the disk is handed back.
pub fn start_node<D: Disk, R: Wait>(
    rt: &R,
    alloc: Global,
    handler: Handler<D>,
) -> Result<Node<D>, D>
    requires sound { IsSound D.seen D.may_leave handler }
    requires works { is_dead handler ≡ false }
    ensures handler { IfOk result (λ node. node.handler ≡ handler) }
    ensures started { IfOk result HasJustStarted }
    ensures refused { IfErr result (λ disk. disk ≡ disk_in handler) }
{
    match begin_processes(rt, alloc, &handler) {
        Ok(processes) => {
            let Processes {
                table,
                seat,
                tree,
                loaded,
            } = processes;
            Ok(Node {
                handler,
                table,
                seat,
                tree,
                loaded,
            })
        }
        Err(AllocError) => Err(handler.into_disk()),
    }
}

// The processes of the release that runs, in a table of their own.
fn begin_processes<D: Disk, R: Wait>(
    rt: &R,
    alloc: Global,
    handler: &Handler<D>,
) -> Result<Processes, AllocError>
    requires sound { IsSound D.seen D.may_leave handler.now }
    requires works { is_dead handler.now ≡ false }
    ensures sound { IfOk result AreSound }
    ensures fresh { IfOk result (λ ps. processes_in ps ≡ fresh_processes (list_in handler.now)) }
    ensures begun { IfOk result (λ ps.
        HaveJustBegun (fresh_beginnings (list_in handler.now)) ps.seat.view) }
{
    let (table, mut seat) = ProcTable::new(alloc)?;
    let Started { tree, loaded } = start_running(rt, alloc, handler, &table, &mut seat)?;
    Ok(Processes {
        table,
        seat,
        tree,
        loaded,
    })
}
