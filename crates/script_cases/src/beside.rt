//! A client that calls a process in a thread of its own while a script is refused before its point of no return.
ghost use Rattle.std.specs.Prelude.{◌≡◌};
ghost use Rattle.held_processes.specs.Following.{HoldsNothing};
ghost use Rattle.relup_instruction.specs.Instruction.{script_of};
ghost use Rattle.relup_exec.specs.Sites.{IsSeated, view_in};
ghost use Rattle.relup_file.specs.Script.{IsRunnable};

use crate::cases::push_stopped;
use crate::node::{
    other_libraries, push_calls, push_states, release_list, running_libraries, script,
};
use crate::starts::{Start, start_app};
use library::Library;
use loaded_modules::Loaded;
use proc_table::{HandlerSeat, Pass, Pid, ProcTable, Tried};
use rel_list::ReleaseList;
use relup_exec::{Refused, Site, run_before};
use relup_file::check;
use relup_instruction::Instr;
use std::alloc::Global;
use std::rc::Rc;
use std::sync::{Barrier, Wait};
use std::thread;
use std::thread::{Threads, join};
use sup_tree::Tree;
use text_cases::{Answer, first_word};

/// How often a client looks for the answer to a call, at most.
const MOST_LOOKS: u64 = 10_000_000;

/// What both do: the script that the handler carries out up to its point, so many times, and how often the client calls.
#[derive(Clone, Copy)]
struct Work<'a> {
    script: &'a [Instr],
    runs: u32,
    calls: u32,
}

/// Where scripts run beside calls: the table, the libraries of the release to which they lead, and the list.
#[derive(Clone, Copy)]
struct Ground<'a> {
    table: &'a ProcTable,
    target: &'a [Rc<Library>],
    list: &'a ReleaseList,
}

/// The seat of the handler, what is started, and what is loaded.
#[derive(Drop)]
struct Started {
    seat: HandlerSeat,
    tree: Tree,
    loaded: Loaded,
}

/// How often a script was refused, and for what: what is told of the first time, and whether it was told each time.
#[derive(Drop)]
struct Refusals {
    count: u32,
    told: String,
    are_alike: bool,
}

/// The text is the inputs of calls of the process of `ch3`, a script, and two numbers, with ` | ` between them. After these calls
/// the handler carries the script out up to its point, as often as the first number says. From the same moment on a client calls
/// the process of `aux` with input 1, in a thread of its own, as often as the second number says. Appends how often the script was
/// refused and for what, how many calls were done, and the states that are seen after both. None of this depends on which call
/// comes first.
pub(crate) fn push_beside<R: Threads + Wait + Sync>(
    rt: &R,
    alloc: Global,
    words: &str,
    answer: &mut Answer,
) {
    let (inputs, rest) = words.split_once(" | ").unwrap_or((words, ""));
    let (terms, numbers) = rest.split_once(" | ").unwrap_or((rest, ""));
    let (runs, calls) = first_word(numbers);
    match script(alloc, terms) {
        Some(script) => {
            let work = Work {
                script: script.as_slice(),
                runs: runs.parse::<u32>().unwrap_or(0),
                calls: calls.parse::<u32>().unwrap_or(0),
            };
            push_on_node(rt, alloc, inputs, &work, answer);
        }
        None => answer.push("no script"),
    }
}

fn push_on_node<R: Threads + Wait + Sync>(
    rt: &R,
    alloc: Global,
    inputs: &str,
    work: &Work<'_>,
    answer: &mut Answer,
) {
    let (Some(libraries), Some(target), Some(list), Ok((table, mut seat))) = (
        running_libraries(alloc),
        other_libraries(alloc),
        release_list(alloc),
        ProcTable::new(alloc),
    ) else {
        return answer.note_no_memory();
    };
    let Ok(loaded) = Loaded::of(alloc, libraries.as_slice()) else {
        return answer.note_no_memory();
    };
    let Some(library) = libraries.first() else {
        return answer.push("no library");
    };
    let start = Start {
        app: &library.app,
        loaded: &loaded,
    };
    let Some(tree) = start_app(rt, alloc, &table, &mut seat, &start, answer) else {
        return;
    };
    let ground = Ground {
        table: &table,
        target: target.as_slice(),
        list: &list,
    };
    let node = Started { seat, tree, loaded };
    push_work(rt, alloc, &ground, node, inputs, work, answer);
}

fn push_work<R: Threads + Wait + Sync>(
    rt: &R,
    alloc: Global,
    ground: &Ground<'_>,
    node: Started,
    inputs: &str,
    work: &Work<'_>,
    answer: &mut Answer,
)
    requires table { node.seat.table ≡ ground.now.table.now }
    requires nothing { HoldsNothing node.seat.view }
{
    let Some(ch3) = Pid::new(0, 1) else {
        return answer.push("no such slot");
    };
    let mut node = node;
    let mut pass = ground.table.new_pass(&mut node.seat);
    push_calls(ground.table, &mut pass, ch3, inputs, answer);
    answer.push(", ");
    match check(work.script) {
        Ok(()) => push_both(rt, alloc, ground, node, work, answer),
        Err(fault) => answer.push_shown(&fault),
    }
    push_states(ground.table, &mut pass, answer);
}

fn push_both<R: Threads + Wait + Sync>(
    rt: &R,
    alloc: Global,
    ground: &Ground<'_>,
    node: Started,
    work: &Work<'_>,
    answer: &mut Answer,
)
    requires table { node.seat.table ≡ ground.now.table.now }
    requires nothing { HoldsNothing node.seat.view }
    requires runnable { IsRunnable (script_of work.now.script.now) }
{
    let Some(aux) = Pid::new(1, 1) else {
        return answer.push("no such slot");
    };
    let mut node = node;
    let table = ground.table;
    let pass = table.new_pass(&mut node.seat);
    let calls = work.calls;
    let start = Barrier::new(2);
    let (done, refusals) = join(
        rt,
        || call_often(rt, table, &start, pass, aux, calls),
        || refuse_often(rt, alloc, ground, &start, node, work),
    );
    push_refusals(&refusals, answer);
    answer.push_counted(", calls done ", done as u64);
}

// Calls the process so many times, and no more once a call isn't done. Says how many were.
fn call_often<R: Wait>(
    rt: &R,
    table: &ProcTable,
    start: &Barrier,
    pass: Pass,
    pid: Pid,
    calls: u32,
) -> u32
    requires { pass.table ≡ table.now }
{
    let _ = start.wait(rt);
    let mut pass = pass;
    for done in 0..calls {
        if !is_done_at_last(table, &mut pass, pid) {
            return done;
        }
    }
    calls
}

// Whether a call is done, which is tried while another one has the process.
fn is_done_at_last(table: &ProcTable, pass: &mut Pass, pid: Pid) -> bool
    requires { pass.old.table ≡ table.now }
    ensures { pass.new.table ≡ pass.old.table }
{
    for _ in 0..MOST_LOOKS {
        match table.try_call(pass, pid, 1) {
            Tried::Busy | Tried::Held => thread::yield_now(),
            answer => return matches!(answer, Tried::Done(_)),
        }
    }
    false
}

// Carries the script out up to its point so many times.
fn refuse_often<R: Wait>(
    rt: &R,
    alloc: Global,
    ground: &Ground<'_>,
    start: &Barrier,
    node: Started,
    work: &Work<'_>,
) -> Refusals
    requires table { node.seat.table ≡ ground.now.table.now }
    requires nothing { HoldsNothing node.seat.view }
    requires runnable { IsRunnable (script_of work.now.script.now) }
{
    let _ = start.wait(rt);
    let mut node = node;
    let mut site = Site {
        table: ground.table,
        seat: &mut node.seat,
        tree: &mut node.tree,
        loaded: &mut node.loaded,
        target: ground.target,
        list: ground.list,
    };
    refuse_on(rt, alloc, &mut site, work)
}

fn refuse_on<R: Wait>(rt: &R, alloc: Global, site: &mut Site<'_>, work: &Work<'_>) -> Refusals
    requires seated { IsSeated site.old }
    requires nothing { HoldsNothing (view_in site.old) }
    requires runnable { IsRunnable (script_of work.now.script.now) }
{
    let mut refusals = Refusals::new(alloc);
    for _ in 0..work.runs {
        if let Some(refused) = refusal(rt, alloc, site, work.script) {
            refusals.note(alloc, &refused);
        }
    }
    refusals
}

// What is refused of the script. Where nothing is, it goes back from its point.
fn refusal<R: Wait>(rt: &R, alloc: Global, site: &mut Site<'_>, script: &[Instr]) -> Option<Refused>
    requires seated { IsSeated site.old }
    requires nothing { HoldsNothing (view_in site.old) }
    requires runnable { IsRunnable (script_of script.now) }
    ensures seated { IsSeated site.new }
    ensures nothing { HoldsNothing (view_in site.new) }
{
    match run_before(rt, alloc, site, script) {
        Ok(armed) => {
            armed.roll_back(site);
            None
        }
        Err(refused) => Some(refused),
    }
}

impl Refusals {
    fn new(alloc: Global) -> Refusals {
        Refusals {
            count: 0,
            told: String::new(alloc),
            are_alike: true,
        }
    }

    // A refusal of which nothing can be told, for want of memory, is like no other.
    fn note(&mut self, alloc: Global, refused: &Refused) {
        let mut answer = Answer::new(alloc);
        push_stopped(alloc, "", refused.instr, &refused.cause, &mut answer);
        match answer.finish() {
            Ok(told) if self.count == 0 => self.told = told,
            Ok(told) => self.are_alike = self.are_alike && told.as_str() == self.told.as_str(),
            Err(_) => self.are_alike = false,
        }
        self.count = self.count.saturating_add(1);
    }
}

fn push_refusals(refusals: &Refusals, answer: &mut Answer) {
    answer.push_counted("refused ", refusals.count as u64);
    answer.push(if refusals.are_alike {
        " times: "
    } else {
        " times, not alike, first: "
    });
    answer.push(refusals.told.as_str());
}
