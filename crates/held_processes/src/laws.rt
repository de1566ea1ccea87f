//! Laws of courses. Each function does nothing: its contract is the law.
ghost use Rattle.held_processes.specs.Laws.{BlocksAlone, NoBlockIsNothing, PendingAddsNoBlock, StartsHoldNothing};

/// While no pass is lent, the history that the handler has seen is that from before, and the blocks of the course: whole, and
/// in order.
pub fn a_handler_alone_sees_its_blocks()
    ensures { BlocksAlone }
{}

/// Where no course has a block, the handler added nothing. So a way back from before the point of no return leaves no trace.
pub fn without_a_block_nothing_was_added()
    ensures { NoBlockIsNothing }
{}

/// Suspended processes, loads of processes that are kept, and changes of code add no block.
pub fn what_is_pending_adds_no_block()
    ensures { PendingAddsNoBlock }
{}

/// Where the handler holds nothing, it holds nothing after the start or the stop of an application.
pub fn starts_and_stops_leave_nothing_held()
    ensures { StartsHoldNothing }
{}
