//! The answer to a case of single operations on the processes of a module.
ghost use Rattle.std.specs.Prelude.{◌≡◌};
ghost use Rattle.held_processes.specs.Following.{HoldsNothing};

use crate::apps::{Restart, restart_app};
use crate::node::{libraries, push_calls, push_states};
use crate::starts::{Start, start_app};
use crate::ways::{Upgrade, Way, carry_out};
use erl_term::{Term, read_record};
use held_processes::Users;
use loaded_modules::Loaded;
use mod_table::{Old, Table, Worker, read_mod};
use proc_table::{HandlerSeat, Pid, ProcTable};
use std::alloc::Global;
use std::sync::Wait;
use sup_tree::Tree;
use text_cases::Answer;

/// The library of an application, in whose slots 0 and 1 the module `ch3` runs, and in slot 2 `aux`.
const LIBRARY: &[u8] =
    b"[{lib,{application,ch_app,[{vsn,\"1\"},{modules,[ch_sup,ch3,aux]},{mod,{ch_sup,[]}}]},[{supervisor,ch_sup,\"1\",[{a,{ch3,start_link,[]},permanent,2000,worker,[ch3]},{b,{ch3,start_link,[]},permanent,2000,worker,[ch3]},{c,{aux,start_link,[]},permanent,2000,worker,[aux]}]},{worker,ch3,\"1\",0,[{add,1,1}]},{worker,aux,\"1\",0,[{add,1,5}]}]}].";

/// The table of `ch3` that is loaded: from version 1 the states 0 and 3 become others.
const NEW_TABLE: &[u8] = b"{worker,ch3,\"2\",100,[{add,1,2},{change,\"1\",[],[{0,100},{3,103}]}]}.";

/// The mode names a [`Way`]. The text is the inputs of calls of the first process before it, and after ` | ` those after it. The
/// answer is what these calls are answered, between them what a client is answered meanwhile, and the states then.
pub(crate) fn push_way<R: Wait>(
    rt: &R,
    alloc: Global,
    mode: &str,
    words: &str,
    answer: &mut Answer,
) {
    let (before, behind) = words.split_once(" | ").unwrap_or((words, ""));
    match way_of(mode) {
        Some(way) => push_case(rt, alloc, way, before, behind, answer),
        None => answer.push("no such mode"),
    }
}

fn way_of(word: &str) -> Option<Way> {
    match word {
        "resumed" => Some(Way::Resumed),
        "finished" => Some(Way::Finished),
        "back" => Some(Way::Back),
        "without_row" => Some(Way::WithoutRow),
        "kept" => Some(Way::Kept),
        "alone" => Some(Way::Alone),
        "restarted" => Some(Way::Restarted),
        "app_restarted" => Some(Way::AppRestarted),
        _ => None,
    }
}

fn push_case<R: Wait>(
    rt: &R,
    alloc: Global,
    way: Way,
    before: &str,
    behind: &str,
    answer: &mut Answer,
) {
    let (Some(libraries), Ok((table, mut seat))) = (
        libraries(alloc, LIBRARY),
        ProcTable::new(alloc),
    ) else {
        return answer.note_no_memory();
    };
    let Ok(loaded) = Loaded::of(alloc, libraries.as_slice()) else {
        return answer.note_no_memory();
    };
    let Some(library) = libraries.first() else {
        return answer.push("no library");
    };
    let start = Start {
        app: &library.app,
        loaded: &loaded,
    };
    let Some(mut tree) = start_app(rt, alloc, &table, &mut seat, &start, answer) else {
        return;
    };
    if way == Way::AppRestarted {
        push_restart(
            rt, alloc, &table, &mut seat, &mut tree, &start, before, behind, answer,
        );
    } else {
        push_script(
            rt, alloc, &table, &mut seat, &tree, way, before, behind, answer,
        );
    }
}

fn push_script<R: Wait>(
    rt: &R,
    alloc: Global,
    table: &ProcTable,
    seat: &mut HandlerSeat,
    tree: &Tree,
    way: Way,
    before: &str,
    behind: &str,
    answer: &mut Answer,
)
    requires table { seat.old.table ≡ table.now }
    requires nothing { HoldsNothing seat.old.view }
    ensures { seat.new.table ≡ seat.old.table }
{
    let (Some(worker), Some(extra), Some(old), Some(pid)) = (
        new_table(alloc),
        no_extra(alloc),
        version(alloc, way),
        Pid::new(0, 1),
    ) else {
        return answer.note_no_memory();
    };
    let users = Users {
        tree,
        module: "ch3",
    };
    let upgrade = Upgrade {
        alloc,
        users,
        worker: &worker,
        old: &old,
        extra: &extra,
        way,
        pid,
    };
    let mut pass = table.new_pass(seat);
    push_calls(table, &mut pass, pid, before, answer);
    carry_out(rt, table, seat, &mut pass, &upgrade, answer);
    push_calls(table, &mut pass, pid, behind, answer);
    push_states(table, &mut pass, answer);
    table.take_back(seat, pass);
}

fn push_restart<R: Wait>(
    rt: &R,
    alloc: Global,
    table: &ProcTable,
    seat: &mut HandlerSeat,
    tree: &mut Tree,
    start: &Start<'_>,
    before: &str,
    behind: &str,
    answer: &mut Answer,
)
    requires table { seat.old.table ≡ table.now }
    requires nothing { HoldsNothing seat.old.view }
    ensures { seat.new.table ≡ seat.old.table }
{
    let Some(pid) = Pid::new(0, 1) else {
        return answer.push("no slot");
    };
    let whole = Restart {
        alloc,
        app: start.app,
        loaded: start.loaded,
        module: "ch3",
        pid,
    };
    let mut pass = table.new_pass(seat);
    push_calls(table, &mut pass, pid, before, answer);
    restart_app(rt, table, seat, &mut pass, tree, &whole, answer);
    push_calls(table, &mut pass, pid, behind, answer);
    push_states(table, &mut pass, answer);
    table.take_back(seat, pass);
}

fn new_table(alloc: Global) -> Option<Worker> {
    match read_mod(alloc, NEW_TABLE) {
        Ok(Table::Worker(worker)) => Some(worker),
        _ => None,
    }
}

fn no_extra(alloc: Global) -> Option<Term> {
    read_record(alloc, b"[].").ok()
}

// The version of which the new table has a row, or one of which it has none.
fn version(alloc: Global, way: Way) -> Option<Old> {
    let vsn = if way == Way::WithoutRow { "9" } else { "1" };
    Some(Old::Up(String::from_str(alloc, vsn).ok()?))
}
