// Which image a crash leaves.

/// Which image a crash leaves of a disk in memory.
#[derive(Clone, Copy)]
pub enum Pick {
    /// The bytes as they were written.
    Kept,
    /// This byte wherever something was written since the last sync, and the others as they were written.
    Filled(u8),
    /// The bytes as they were written, cut to the smallest length since the last sync.
    Short,
}
