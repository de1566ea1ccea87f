//! The members of started applications, and supervisors whose children change.
use crate::processes::push_pid;
use loaded_modules::Loaded;
use mod_table::Table;
use std::alloc::Global;
use std::sync::Wait;
use sup_tree::{MemberState, Tree};
use table_access::{Seating, TableAccess};
use text_cases::{Answer, first_word};

/// Appends what comes of a step on the members of applications.
///
/// - `members APP`: each member, with its depth, its id and its module, and what stands for it: a process, by its name, a
///   supervisor, or nothing.
/// - `change MODULE`: the supervisors of the module get the children of its table that is loaded. `none` where that is not one of
///   a supervisor.
pub(crate) fn step_of_children(
    alloc: Global,
    loaded: &Loaded,
    tree: &mut Tree,
    word: &str,
    name: &str,
    answer: &mut Answer,
) {
    if word == "members" {
        return push_members(tree, name, answer);
    }
    match loaded.table(name) {
        Some(Table::Super(table)) => match tree.change_children(alloc, name, table) {
            Ok(()) => answer.push("ok"),
            Err(_) => answer.note_no_memory(),
        },
        Some(Table::Worker(_)) | None => answer.push("none"),
    }
}

/// Appends what comes of a step on one child: `terminate MODULE ID`, `delete MODULE ID` and `restart MODULE ID`. The last two
/// answer `nothing` where nothing was done.
pub(crate) fn step_of_child<R: Wait, S: Seating>(
    rt: &R,
    alloc: Global,
    access: &mut TableAccess<'_, S>,
    loaded: &Loaded,
    tree: &mut Tree,
    word: &str,
    child: &str,
    answer: &mut Answer,
) {
    let (module, id) = first_word(child);
    match word {
        "terminate" => match tree.terminate_child(rt, access, module, id) {
            Ok(()) => answer.push("ok"),
            Err(error) => answer.push_shown(&error),
        },
        "delete" => match tree.delete_child(rt, access, module, id) {
            Ok(nothing) => push_done(nothing, answer),
            Err(error) => answer.push_shown(&error),
        },
        _ => match tree.restart_child(rt, alloc, access, loaded, module, id) {
            Ok(nothing) => push_done(nothing, answer),
            Err(error) => answer.push_shown(&error),
        },
    }
}

fn push_done(nothing: bool, answer: &mut Answer) {
    answer.push(if nothing { "nothing" } else { "ok" });
}

fn push_members(tree: &Tree, app: &str, answer: &mut Answer) {
    let mut between = "";
    for member in tree.members(app) {
        answer.push_counted(between, member.depth as u64);
        answer.push_after(" ", member.id.as_str());
        answer.push_after(" ", member.module.as_str());
        push_state(&member.state, answer);
        between = ", ";
    }
}

fn push_state(state: &MemberState, answer: &mut Answer) {
    answer.push(" ");
    match state {
        MemberState::Ended => answer.push("ended"),
        MemberState::Process(process) => push_pid(Some(process.pid), answer),
        MemberState::Supervisor(_) => answer.push("supervisor"),
    }
}
