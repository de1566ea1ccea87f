//! Laws of the definitions themselves. Each function does nothing: its contract is the law.
ghost use Rattle.proc_workers.specs.Hands.{NothingIsLost};

/// However notes are counted: what the ends of a mailbox added is what the inbox took and what waits. Those ends are the inbox,
/// the ends that it made, those that these made, and so on: no other end has added anything.
pub fn nothing_is_lost_or_comes_twice()
    ensures { NothingIsLost }
{}
