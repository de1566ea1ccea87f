//! What the handler adds to a history when it releases a process.
use erl_term::Term;
use mod_table::{Old, Worker};

/// An entry of the handler.
#[derive(Drop)]
pub enum Entry<'a> {
    /// The process that is released begins, with its round. It stands last in its list.
    Begin,
    /// The process has this table.
    Loaded(&'a Worker),
    /// The code of the process was changed from this version, with this extra term.
    Changed(Old, &'a Term),
    /// The process was stopped.
    Stopped,
    /// The process that was stopped is up again.
    Started,
    /// Nothing stands in the slot any more.
    GivenUp,
}
