// What a node keeps on its disk.
ghost use Rattle.std.specs.Prelude.{◌≡◌};
ghost use Rattle.node_store.specs.State.{disk_in};

use rel_disk::Disk;
use rel_list::ReleaseList;
use rel_store::Store;

/// The releases of a node, and the store that has a record of each event. Between two calls `IsSound` is known of it, unless
/// it is dead.
#[derive(Drop)]
pub struct NodeStore<D: Disk> {
    /// The store, which has the records of the list.
    pub store: Store<D>,
    /// The releases after all events, also after one whose record is being written.
    pub list: ReleaseList,
    /// A boot has to come first.
    pub dead: bool,
}

impl<D: Disk> NodeStore<D> {
    /// The disk, with whatever is known of it.
    pub fn into_disk(self) -> D
        ensures { result ≡ disk_in self }
    {
        let NodeStore {
            store,
            list: _,
            dead: _,
        } = self;
        store.into_disk()
    }
}
