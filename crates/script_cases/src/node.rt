//! What a case starts from: a release that runs, another one, and what a client sees of processes.
ghost use Rattle.std.specs.Prelude.{◌≡◌};

use erl_term::read_record;
use library::{Library, libraries_of_terms};
use proc_table::{Pass, Peeked, Pid, ProcTable, Tried};
use rel_files::parts::list_in;
use rel_files::read_rel;
use rel_list::{Bundle, Event, ReleaseList};
use relup_instruction::{Instr, script_in};
use std::alloc::Global;
use std::rc::Rc;
use text_cases::Answer;

/// The libraries of the release that runs: `ch3` runs in slot 0, `aux` in slot 1.
const RUNNING: &[u8] =
    b"[{lib,{application,ch_app,[{vsn,\"1\"},{modules,[ch_sup,ch3,aux]},{mod,{ch_sup,[]}}]},[{supervisor,ch_sup,\"1\",[{ch3,{ch3,start_link,[]},permanent,2000,worker,[ch3]},{aux,{aux,start_link,[]},transient,brutal_kill,worker,[aux]}]},{worker,ch3,\"1\",0,[{add,1,1},{on,4,7,40,400}]},{worker,aux,\"1\",0,[{add,1,5},{stop,5,9,99}]}]}].";

/// The libraries of the other release: the next version of the application, one in which its modules have no tables, and one
/// whose supervisor has another child first, and doesn't name `aux`.
const OTHER: &[u8] =
    b"[{lib,{application,ch_app,[{vsn,\"2\"},{modules,[ch_sup,ch3,aux]},{mod,{ch_sup,[]}}]},[{supervisor,ch_sup,\"1\",[{ch3,{ch3,start_link,[]},permanent,2000,worker,[ch3]},{aux,{aux,start_link,[]},transient,brutal_kill,worker,[aux]}]},{worker,ch3,\"2\",100,[{add,1,2},{change,\"1\",[],[{3,103}]},{change,{down,\"1\"},[],[{103,3}]}]},{worker,aux,\"1\",0,[{add,1,5},{stop,5,9,99}]}]},{lib,{application,ch_app,[{vsn,\"0\"},{modules,[ch3,spare]}]},[]},{lib,{application,ch_app,[{vsn,\"4\"},{modules,[ch_sup]}]},[{supervisor,ch_sup,\"2\",[{aux2,{aux,start_link,[]},permanent,2000,worker,[aux]},{ch3,{ch3,start_link,[]},permanent,2000,worker,[ch3]}]}]}].";

pub(crate) fn running_libraries(alloc: Global) -> Option<Vec<Rc<Library>>> {
    libraries(alloc, RUNNING)
}

/// The libraries of the release to which scripts lead.
pub(crate) fn other_libraries(alloc: Global) -> Option<Vec<Rc<Library>>> {
    libraries(alloc, OTHER)
}

/// The libraries of a record.
pub(crate) fn libraries(alloc: Global, text: &[u8]) -> Option<Vec<Rc<Library>>> {
    let term = read_record(alloc, text).ok()?;
    libraries_of_terms(alloc, list_in(&term)?).ok()?
}

fn bundle(alloc: Global, release: &[u8], text: &[u8]) -> Option<Bundle> {
    let libraries = libraries(alloc, text)?;
    match read_rel(alloc, release) {
        Ok(release) => Some(Bundle {
            release,
            libraries,
            relup: None,
        }),
        Err(_) => None,
    }
}

/// The list of the two releases.
pub(crate) fn release_list(alloc: Global) -> Option<ReleaseList> {
    let running = bundle(
        alloc,
        b"{release,{\"ch_rel\",\"A\"},{erts,\"14.2\"},[]}.",
        RUNNING,
    )?;
    let other = bundle(
        alloc,
        b"{release,{\"ch_rel\",\"B\"},{erts,\"14.2\"},[]}.",
        OTHER,
    )?;
    let mut list = ReleaseList::new(alloc);
    list.accept(alloc, Event::Made(running)).ok()?;
    list.accept(alloc, Event::Unpacked(other)).ok()?;
    Some(list)
}

/// The script of these terms.
pub(crate) fn script(alloc: Global, text: &str) -> Option<Vec<Instr>> {
    let term = read_record(alloc, text.as_bytes()).ok()?;
    script_in(alloc, list_in(&term)?).ok()?
}

/// Appends what calls of the process answer.
pub(crate) fn push_calls(
    table: &ProcTable,
    pass: &mut Pass,
    pid: Pid,
    inputs: &str,
    answer: &mut Answer,
)
    requires { pass.old.table ≡ table.now }
    ensures { pass.new.table ≡ pass.old.table }
{
    for input in inputs.split(' ') {
        push_call(table, pass, pid, input.parse::<u32>().unwrap_or(0), answer);
    }
}

/// Appends what a call answers.
pub(crate) fn push_call(
    table: &ProcTable,
    pass: &mut Pass,
    pid: Pid,
    input: u32,
    answer: &mut Answer,
)
    requires { pass.old.table ≡ table.now }
    ensures { pass.new.table ≡ pass.old.table }
{
    if !answer.text.is_empty() {
        answer.push(", ");
    }
    match table.try_call(pass, pid, input) {
        Tried::Done(reply) => answer.push_counted("done ", reply as u64),
        Tried::Crashed => answer.push("crashed"),
        Tried::Ended(reply) => answer.push_counted("ended ", reply as u64),
        Tried::Busy => answer.push("busy"),
        Tried::Held => answer.push("held"),
        Tried::Down => answer.push("down"),
    }
}

/// Appends what is seen in the first three slots.
pub(crate) fn push_states(table: &ProcTable, pass: &mut Pass, answer: &mut Answer)
    requires { pass.old.table ≡ table.now }
    ensures { pass.new.table ≡ pass.old.table }
{
    answer.push(", states");
    for slot in 0..3 {
        answer.push(" ");
        if let Some(pid) = Pid::new(slot, 1) {
            match table.try_peek(pass, pid) {
                Peeked::Seen(state) => answer.push_number(state as u64),
                Peeked::Busy => answer.push("busy"),
                Peeked::Held => answer.push("held"),
                Peeked::Down => answer.push("down"),
            }
        }
    }
}
