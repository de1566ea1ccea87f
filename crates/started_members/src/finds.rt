//! What is looked up among members.
ghost use Rattle.std.specs.Prelude.{◌≡◌, ◌++◌, OnOk, Some, length};
ghost use Rattle.std.specs.Option.{option_map};
ghost use Rattle.proc_table.specs.Agrees.{slots};
ghost use Rattle.started_members.specs.Members.{lower, Notes, lowest_with, module_among, processes_among, supervises_in, using_among, supervisors_in};

use crate::Member;
use proc_table::{Pid, SLOTS};
use std::alloc::AllocError;

/// The process with this id among those of these members; of several the one in the lowest slot.
pub fn process_with(members: &[Member], id: &str) -> Option<Pid>
    ensures { result ≡ lowest_with id.now (processes_among members.now) }
{
    let mut found = None;
    for member in members {
        if let Some(process) = member.process() {
            if process.id.as_str() == id {
                found = Some(lower(found, process.pid));
            }
        }
    }
    found
}

// What was found, or a further place where its slot is lower.
fn lower(found: Option<Pid>, pid: Pid) -> Pid
    ensures { Some result ≡ lower found (Some pid) }
{
    match found {
        Some(lowest) if lowest.slot <= pid.slot => lowest,
        Some(_) | None => pid,
    }
}

/// Puts those of these members that run this module after those that are there.
pub fn add_using(pids: &mut Vec<Pid>, members: &[Member], module: &str) -> Result<(), AllocError>
    ensures { OnOk result (pids.new.items
        ≡ pids.old.items ++ using_among «module».now (processes_among members.now)) }
{
    for member in members {
        if let Some(process) = member.process() {
            if process.module.as_str() == module {
                pids.push(process.pid)?;
            }
        }
    }
    Ok(())
}

/// The module of the process among those of these members that began in this slot.
pub fn module_among(members: &[Member], slot: usize) -> Option<&str>
    ensures { option_map (λ m. m.now) result ≡ module_among slot (processes_among members.now) }
{
    for member in members {
        if let Some(process) = member.process() {
            if process.pid.slot == slot {
                return Some(process.module.as_str());
            }
        }
    }
    None
}

/// Notes each slot in which a process of these members began: whether that process runs this module. Of several that began in one
/// slot the first counts. Other slots keep their notes.
pub fn note_users(used: &mut [bool; SLOTS], members: &[Member], module: &str)
    requires { length used.old ≡ slots }
    ensures long { length used.new ≡ slots }
    ensures noted { Notes «module».now (processes_among members.now) used.old used.new }
{
    // The first process of a slot is noted last.
    for place in (0..members.len()).rev() {
        if let Some(process) = members[place].process() {
            used[process.pid.slot] = module == process.module.as_str();
        }
    }
}

/// Whether a supervisor of this module stands for one of these members.
pub fn supervises_in(members: &[Member], module: &str) -> bool
    ensures { result ≡ supervises_in «module».now members.now }
{
    for member in members {
        if member.is_supervisor(module) {
            return true;
        }
    }
    false
}

/// How many supervisors of this module are among these members.
pub fn supervisor_count(members: &[Member], module: &str) -> usize
    ensures { result ≡ length (supervisors_in «module».now members.now) }
{
    let mut count = 0;
    for member in members {
        if member.is_supervisor(module) {
            count += 1;
        }
    }
    count
}
