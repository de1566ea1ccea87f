//! Laws of scripts. Each function does nothing: its contract is the law.
ghost use Rattle.relup_exec.specs.Alone.{HasOneOutcome, LeavesOneHistory};

/// A script that the handler carries out while no pass is lent has one outcome, memory aside, and it is `outcome`: all is done,
/// or the same instruction is the first that fails, with the same cause. One that has come to its point isn't refused before it.
pub fn a_script_alone_has_one_outcome()
    ensures { HasOneOutcome }
{}

/// A script that fails after its point of no return, carried out while no pass is lent, leaves one history in each slot, memory
/// aside: what was done until then is determined too.
pub fn a_broken_script_leaves_one_history()
    ensures { LeavesOneHistory }
{}
