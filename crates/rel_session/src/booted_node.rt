//! A node that has booted.
ghost use Rattle.std.specs.Prelude.{◌≡◌};
ghost use Rattle.node_store.specs.State.{disk_in};

use node_processes::Processes;
use rel_disk::Disk;
use rel_handler::Handler;

/// A node that has booted: the handler of its releases, and its processes.
pub struct BootedNode<D: Disk> {
    pub(crate) handler: Handler<D>,
    pub(crate) processes: Processes,
}

impl<D: Disk> BootedNode<D> {
    /// The disk.
    pub fn into_disk(self) -> D
        ensures { result ≡ disk_in self.handler }
    {
        let BootedNode {
            handler,
            processes: _,
        } = self;
        handler.into_disk()
    }
}
