//! Laws of processes that begin, and of members that change. Each function does nothing: its contract is the law.
ghost use Rattle.started_members.specs.Laws.{WhatBeganStands, FirstSlots, KeepsProcesses};

/// A process that began stands in its slot, with the names of its application and its id, in the first state of its table.
pub fn what_began_stands()
    ensures { WhatBeganStands }
{}

/// In a new table all slots are free. Where all from one on are, and none below, processes begin in them in order, with round 1.
pub fn processes_begin_in_the_first_slots()
    ensures { FirstSlots }
{}

/// Where the supervisors of a module get other children, no process is lost, and none stands twice.
pub fn a_change_of_children_keeps_the_processes()
    ensures { KeepsProcesses }
{}
