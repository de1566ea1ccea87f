//! Applications that are started and stopped.
ghost use Rattle.std.specs.Prelude.{◌≡◌};

use crate::children::{step_of_child, step_of_children};
use crate::loads::change_loaded;
use crate::processes::push_pid;
use crate::steps::take_step;
use erl_term::read_record;
use library::{Library, libraries_of_terms};
use loaded_modules::Loaded;
use proc_table::{HandlerSeat, ProcTable};
use rel_files::parts::list_in;
use std::alloc::{AllocError, Global};
use std::marker::Brand;
use std::rc::Rc;
use std::sync::Wait;
use sup_tree::{StartError, Tree};
use table_access::{Lent, Seating, TableAccess};
use text_cases::{Answer, first_word, number};

/// Appends what steps at a new table and a new tree answer, with `; ` between them as between the steps. The text is the list of
/// the terms of libraries, whose modules are loaded, and after ` | ` the steps.
///
/// - `start APP`, `stop APP`: `ok`, or why not.
/// - `find APP ID`: the name of the process, or `none`. `using MODULE`: the names of the processes that run it.
/// - `in SLOT`: the module that the process runs which began there, or `none`. `supervises MODULE`: whether a started application
///   has a supervisor of it, `yes` or `no`.
/// - `vsn MODULE`: its version that is loaded, or `none`. `versions`: each module that is loaded, with its version.
/// - `fetch`, `load`, `remove`, `copy` change what is loaded, as [`change_loaded`] has them. `members`, `change` are about the
///   members of applications, as [`step_of_children`] has them, and `terminate`, `delete`, `restart` about one child, as
///   [`step_of_child`] has them.
/// - Any other step is one of a table, as [`crate::steps::follow_steps`] has them.
pub(crate) fn follow_tree<R: Wait>(rt: &R, alloc: Global, words: &str, answer: &mut Answer) {
    let Some((terms, steps)) = words.split_once(" | ") else {
        return answer.push("no steps");
    };
    match libraries_in(alloc, terms) {
        Some(libraries) => follow_with(rt, alloc, libraries.as_slice(), steps, answer),
        None => answer.push("no libraries"),
    }
}

fn libraries_in(alloc: Global, terms: &str) -> Option<Vec<Rc<Library>>> {
    let term = read_record(alloc, terms.as_bytes()).ok()?;
    libraries_of_terms(alloc, list_in(&term)?).ok()?
}

// What the steps change beside the table.
#[derive(Drop)]
struct Apps {
    loaded: Loaded,
    fetched: Loaded,
    tree: Tree,
}

impl Apps {
    // Nothing is started or fetched yet, and the modules of these libraries are loaded.
    fn new(alloc: Global, libraries: &[Rc<Library>]) -> Result<Apps, AllocError> {
        Ok(Apps {
            loaded: Loaded::of(alloc, libraries)?,
            fetched: Loaded::new(alloc),
            tree: Tree::new(alloc),
        })
    }
}

fn follow_with<R: Wait>(
    rt: &R,
    alloc: Global,
    libraries: &[Rc<Library>],
    steps: &str,
    answer: &mut Answer,
) {
    let Ok(mut apps) = Apps::new(alloc, libraries) else {
        return answer.note_no_memory();
    };
    match ProcTable::new(alloc) {
        Ok((table, mut seat)) => follow_each(
            rt, alloc, libraries, &mut apps, &table, &mut seat, steps, answer,
        ),
        Err(_) => answer.note_no_memory(),
    }
}

fn follow_each<R: Wait>(
    rt: &R,
    alloc: Global,
    libraries: &[Rc<Library>],
    apps: &mut Apps,
    table: &ProcTable,
    seat: &mut HandlerSeat,
    steps: &str,
    answer: &mut Answer,
)
    requires { seat.old.table ≡ table.now }
{
    for step in steps.split("; ") {
        if !answer.text.is_empty() {
            answer.push("; ");
        }
        step_of_apps(rt, alloc, libraries, apps, table, seat, step, answer);
    }
}

fn step_of_apps<R: Wait>(
    rt: &R,
    alloc: Global,
    libraries: &[Rc<Library>],
    apps: &mut Apps,
    table: &ProcTable,
    seat: &mut HandlerSeat,
    step: &str,
    answer: &mut Answer,
)
    requires { seat.old.table ≡ table.now }
    ensures { seat.new.table ≡ seat.old.table }
{
    let (word, rest) = first_word(step);
    match word {
        "start" | "stop" | "terminate" | "delete" | "restart" => {
            let step = Step { word, rest };
            change_processes(rt, alloc, libraries, apps, table, seat, &step, answer);
        }
        "fetch" | "load" | "remove" | "copy" => change_loaded(
            alloc,
            libraries,
            &mut apps.loaded,
            &mut apps.fetched,
            step,
            answer,
        ),
        "members" | "change" => {
            step_of_children(alloc, &apps.loaded, &mut apps.tree, word, rest, answer);
        }
        "vsn" | "versions" => push_loaded(alloc, &apps.loaded, word, rest, answer),
        "find" | "using" | "in" | "supervises" => {
            push_found(alloc, &apps.tree, word, rest, answer);
        }
        _ => take_step(rt, alloc, table, seat, step, answer),
    }
}

// A step on applications or children, and what it names.
#[derive(Clone, Copy)]
struct Step<'a> {
    word: &'a str,
    rest: &'a str,
}

// A step that begins processes, or gives them up.
fn change_processes<R: Wait>(
    rt: &R,
    alloc: Global,
    libraries: &[Rc<Library>],
    apps: &mut Apps,
    table: &ProcTable,
    seat: &mut HandlerSeat,
    step: &Step<'_>,
    answer: &mut Answer,
)
    requires { seat.old.table ≡ table.now }
    ensures { seat.new.table ≡ seat.old.table }
{
    let lent = Lent { table, seat };
    let _ = change_processes_at::<R, Brand>(rt, alloc, libraries, apps, lent, step, answer);
}

fn change_processes_at<'t, R: Wait, S: Seating>(
    rt: &R,
    alloc: Global,
    libraries: &[Rc<Library>],
    apps: &mut Apps,
    lent: Lent<'t>,
    step: &Step<'_>,
    answer: &mut Answer,
) -> &'t mut HandlerSeat
    requires name { lent.seat.ghost_name ≡ S.name }
    requires table { (lent.seat.now.table ≡ S.table) × (lent.table.now ≡ S.table) }
    ensures name { result.ghost_name ≡ S.name }
    ensures table { result.now.table ≡ S.table }
{
    let mut access: TableAccess<'t, S> = TableAccess::new(lent);
    push_changed(rt, alloc, libraries, apps, &mut access, step, answer);
    access.into_seat()
}

fn push_changed<R: Wait, S: Seating>(
    rt: &R,
    alloc: Global,
    libraries: &[Rc<Library>],
    apps: &mut Apps,
    access: &mut TableAccess<'_, S>,
    step: &Step<'_>,
    answer: &mut Answer,
) {
    match step.word {
        "start" => push_start(rt, alloc, libraries, apps, access, step.rest, answer),
        "stop" => match apps.tree.stop_app(rt, access, step.rest) {
            Ok(()) => answer.push("ok"),
            Err(error) => answer.push_shown(&error),
        },
        _ => step_of_child(
            rt,
            alloc,
            access,
            &apps.loaded,
            &mut apps.tree,
            step.word,
            step.rest,
            answer,
        ),
    }
}

fn push_start<R: Wait, S: Seating>(
    rt: &R,
    alloc: Global,
    libraries: &[Rc<Library>],
    apps: &mut Apps,
    access: &mut TableAccess<'_, S>,
    name: &str,
    answer: &mut Answer,
) {
    for library in libraries {
        if library.app.name.as_str() == name {
            match apps
                .tree
                .start_app(rt, alloc, access, &library.app, &apps.loaded)
            {
                Ok(()) => answer.push("ok"),
                Err(StartError::NoTable(module)) => answer.push_after("NoTable ", module),
                Err(error) => answer.push_shown(&error),
            }
            return;
        }
    }
    answer.push("no such application");
}

fn push_found(alloc: Global, tree: &Tree, word: &str, name: &str, answer: &mut Answer) {
    match word {
        "find" => {
            let (app, id) = first_word(name);
            push_pid(tree.find(app, id), answer);
        }
        "using" => push_using(alloc, tree, name, answer),
        "in" => answer.push(tree.module_in(number(name)).unwrap_or("none")),
        _ => answer.push(if tree.supervises(name) { "yes" } else { "no" }),
    }
}

fn push_loaded(alloc: Global, loaded: &Loaded, word: &str, name: &str, answer: &mut Answer) {
    match word {
        "versions" => push_versions(alloc, loaded, answer),
        _ => answer.push(loaded.vsn(name).unwrap_or("none")),
    }
}

fn push_using(alloc: Global, tree: &Tree, module: &str, answer: &mut Answer) {
    let Ok(pids) = tree.processes_using(alloc, module) else {
        return answer.note_no_memory();
    };
    let mut between = "";
    for pid in pids.as_slice() {
        answer.push(between);
        push_pid(Some(*pid), answer);
        between = ", ";
    }
}

fn push_versions(alloc: Global, loaded: &Loaded, answer: &mut Answer) {
    let Ok(versions) = loaded.versions(alloc) else {
        return answer.note_no_memory();
    };
    let mut between = "";
    for (name, vsn) in versions.as_slice() {
        answer.push(between);
        answer.push(name);
        answer.push_after(" ", vsn);
        between = ", ";
    }
}
