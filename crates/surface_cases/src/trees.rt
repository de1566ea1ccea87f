//! Applications and their supervisors: `sup_tree`.
ghost use Rattle.std.specs.Prelude.{◌≡◌};

use erl_term::read_record;
use library::{Library, Table, libraries_of_terms};
use proc_table::{HandlerSeat, ProcTable};
use rel_files::App;
use rel_files::parts::list_in;
use std::alloc::Global;
use std::marker::Brand;
use std::rc::Rc;
use std::sync::Wait;
use sup_tree::{Loaded, NoSuchApp, NoSuper, RestartError, StartError, Tree};
use table_access::{Lent, Seating, TableAccess};
use text_cases::{Answer, first_word};

/// A process that is looked for in an application, and a module whose processes are.
#[derive(Clone, Copy)]
struct Sought<'a> {
    /// The module of its supervisor.
    top: &'a str,
    /// The id of the process.
    id: &'a str,
    /// The module.
    module: &'a str,
}

/// Appends what comes of an application that is started, started again, looked at, changed, stopped and stopped again. The text is an
/// id, a module, and the list of the application's library as a record has it.
pub(crate) fn push_applications<R: Wait>(rt: &R, alloc: Global, words: &str, answer: &mut Answer) {
    let (id, words) = first_word(words);
    let (module, terms) = first_word(words);
    let Some(libraries) = libraries_in(alloc, terms) else {
        return answer.push("no libraries");
    };
    let (Ok(loaded), Ok((table, mut seat))) = (
        Loaded::of(alloc, libraries.as_slice()),
        ProcTable::new(alloc),
    ) else {
        return answer.note_no_memory();
    };
    let [library] = libraries.as_slice() else {
        return answer.push("not one library");
    };
    let app = &library.as_ref().app;
    let top = match &app.top {
        Some(top) => top.as_str(),
        None => "",
    };
    let sought = Sought { top, id, module };
    push_application(rt, alloc, &table, &mut seat, app, &loaded, &sought, answer);
}

fn libraries_in(alloc: Global, terms: &str) -> Option<Vec<Rc<Library>>> {
    let term = read_record(alloc, terms.as_bytes()).ok()?;
    libraries_of_terms(alloc, list_in(&term)?).ok()?
}

fn push_application<R: Wait>(
    rt: &R,
    alloc: Global,
    table: &ProcTable,
    seat: &mut HandlerSeat,
    app: &App,
    loaded: &Loaded,
    sought: &Sought<'_>,
    answer: &mut Answer,
)
    requires { seat.old.table ≡ table.now }
{
    let lent = Lent { table, seat };
    let _ = push_application_at::<R, Brand>(rt, alloc, lent, app, loaded, sought, answer);
}

fn push_application_at<'t, R: Wait, S: Seating>(
    rt: &R,
    alloc: Global,
    lent: Lent<'t>,
    app: &App,
    loaded: &Loaded,
    sought: &Sought<'_>,
    answer: &mut Answer,
) -> &'t mut HandlerSeat
    requires name { lent.seat.ghost_name ≡ S.name }
    requires table { (lent.seat.now.table ≡ S.table) × (lent.table.now ≡ S.table) }
{
    let mut access: TableAccess<'t, S> = TableAccess::new(lent);
    let mut tree = Tree::new(alloc);
    push_started(tree.start_app(rt, alloc, &mut access, app, loaded), answer);
    push_started(tree.start_app(rt, alloc, &mut access, app, loaded), answer);
    push_found(&tree, app, sought.id, answer);
    push_using(alloc, &tree, sought.module, answer);
    push_children(rt, alloc, &mut access, &mut tree, loaded, sought, answer);
    push_stopped(tree.stop_app(rt, &mut access, app.name.as_str()), answer);
    push_stopped(tree.stop_app(rt, &mut access, app.name.as_str()), answer);
    access.into_seat()
}

fn push_started(started: Result<(), StartError<'_>>, answer: &mut Answer) {
    answer.push("start_app ");
    match started {
        Ok(()) => answer.push("ok"),
        Err(StartError::NoTable(module)) => answer.push_after("NoTable ", module),
        Err(StartError::NoMemory) => answer.note_no_memory(),
        Err(error) => answer.push_shown(&error),
    }
    answer.push(", ");
}

fn push_found(tree: &Tree, app: &App, id: &str, answer: &mut Answer) {
    answer.push("find ");
    match tree.find(app.name.as_str(), id) {
        Some(pid) => {
            answer.push_counted("", pid.slot as u64);
            answer.push_counted(" ", u64::from(pid.round));
        }
        None => answer.push("None"),
    }
}

fn push_using(alloc: Global, tree: &Tree, module: &str, answer: &mut Answer) {
    match tree.processes_using(alloc, module) {
        Ok(pids) => answer.push_counted(", processes_using ", pids.len() as u64),
        Err(_) => answer.note_no_memory(),
    }
}

// Ends the child that is looked for, begins it again, ends and deletes it, and gives its supervisor the children of its table.
fn push_children<R: Wait, S: Seating>(
    rt: &R,
    alloc: Global,
    access: &mut TableAccess<'_, S>,
    tree: &mut Tree,
    loaded: &Loaded,
    sought: &Sought<'_>,
    answer: &mut Answer,
) {
    let Sought { top, id, .. } = *sought;
    push_ended(tree.terminate_child(rt, access, top, id), answer);
    push_restarted(
        tree.restart_child(rt, alloc, access, loaded, top, id),
        answer,
    );
    push_ended(tree.terminate_child(rt, access, top, id), answer);
    push_deleted(tree.delete_child(rt, access, top, id), answer);
    if let Some(Table::Super(table)) = loaded.table(top) {
        let changed = tree.change_children(alloc, top, table);
        answer.push(match changed {
            Ok(()) => ", change_children ok",
            Err(_) => ", change_children NoMemory",
        });
    }
}

fn push_ended(ended: Result<(), NoSuper>, answer: &mut Answer) {
    answer.push(match ended {
        Ok(()) => ", terminate_child ok",
        Err(NoSuper) => ", terminate_child NoSuper",
    });
}

// A child of which nothing was done stays.
fn push_restarted(restarted: Result<bool, RestartError>, answer: &mut Answer) {
    answer.push(", restart_child ");
    match restarted {
        Ok(stays) => answer.push(if stays { "stays" } else { "ok" }),
        Err(error) => answer.push_shown(&error),
    }
}

fn push_deleted(deleted: Result<bool, NoSuper>, answer: &mut Answer) {
    answer.push(match deleted {
        Ok(false) => ", delete_child ok",
        Ok(true) => ", delete_child stays",
        Err(NoSuper) => ", delete_child NoSuper",
    });
}

fn push_stopped(stopped: Result<(), NoSuchApp>, answer: &mut Answer) {
    answer.push(", stop_app ");
    match stopped {
        Ok(()) => answer.push("ok"),
        Err(NoSuchApp) => answer.push("NoSuchApp"),
    }
}
