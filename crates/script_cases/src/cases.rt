//! The answer to a case.
ghost use Rattle.std.specs.Prelude.{◌≡◌};
ghost use Rattle.held_processes.specs.Following.{HoldsNothing};
ghost use Rattle.relup_instruction.specs.Instruction.{script_of};
ghost use Rattle.relup_exec.specs.Outcome.{Start};
ghost use Rattle.relup_exec.specs.Sites.{IsSeated, LendsSame, start_in, view_in};
ghost use Rattle.relup_file.specs.Script.{IsRunnable};

use crate::beside::push_beside;
use crate::held::push_way;
use crate::node::{
    other_libraries, push_call, push_calls, release_list, running_libraries, script,
};
use crate::starts::{Start as Application, start_app};
use loaded_modules::Loaded;
use proc_table::{Pass, Pid, ProcTable};
use rel_list::ReleaseList;
use relup_exec::{Cause, Done, Site, run_before};
use relup_file::check;
use relup_instruction::Instr;
use std::alloc::{AllocError, Global};
use std::sync::Wait;
use std::thread::Threads;
use sup_tree::{MemberState, Tree};
use text_cases::Answer;

/// The text is the inputs of calls of the process of `ch3`, a script, and inputs of further calls, with ` | ` between them. The
/// answer is what the calls answer, whether the script can't be run, is refused, or is armed, and then, by the mode: `before`,
/// what a call is answered while it is armed, and, once it was rolled back, what the further calls answer; `whole`, which
/// instruction after the point fails, or that the script is done and which modules are loaded then, and what the further calls
/// answer; `tree`, the same, and after it the ids of the members of `ch_app`, with `-` before one for which nothing stands.
/// `beside`: a script that is refused while a client calls, as in [`push_beside`]. The modes of single operations are those of
/// [`push_way`].
pub(crate) fn answer<R: Threads + Wait + Sync>(
    rt: &R,
    alloc: Global,
    mode: &str,
    text: &[u8],
) -> Result<String, AllocError> {
    let mut answer = Answer::new(alloc);
    let words = str::from_utf8(text).unwrap_or("");
    match mode {
        "before" => push_case(rt, alloc, Mode::Before, words, &mut answer),
        "whole" => push_case(rt, alloc, Mode::Whole, words, &mut answer),
        "tree" => push_case(rt, alloc, Mode::Tree, words, &mut answer),
        "beside" => push_beside(rt, alloc, words, &mut answer),
        _ => push_way(rt, alloc, mode, words, &mut answer),
    }
    answer.finish()
}

fn push_case<R: Wait>(rt: &R, alloc: Global, mode: Mode, words: &str, answer: &mut Answer) {
    let (inputs, rest) = words.split_once(" | ").unwrap_or((words, ""));
    let (terms, behind) = rest.split_once(" | ").unwrap_or((rest, ""));
    match (script(alloc, terms), release_list(alloc)) {
        (Some(script), Some(list)) => {
            let case = Case {
                mode,
                script: script.as_slice(),
                inputs,
                behind,
            };
            push_with_list(rt, alloc, &list, &case, answer);
        }
        _ => answer.push("no script"),
    }
}

/// How far a script is carried out.
#[derive(Clone, Copy)]
enum Mode {
    Before,
    Whole,
    Tree,
}

/// A script, and the calls around it.
#[derive(Clone, Copy)]
struct Case<'a> {
    mode: Mode,
    script: &'a [Instr],
    inputs: &'a str,
    behind: &'a str,
}

fn push_with_list<R: Wait>(
    rt: &R,
    alloc: Global,
    list: &ReleaseList,
    case: &Case<'_>,
    answer: &mut Answer,
) {
    let (Some(libraries), Some(target), Ok((table, mut seat))) = (
        running_libraries(alloc),
        other_libraries(alloc),
        ProcTable::new(alloc),
    ) else {
        return answer.note_no_memory();
    };
    let Ok(mut loaded) = Loaded::of(alloc, libraries.as_slice()) else {
        return answer.note_no_memory();
    };
    let Some(library) = libraries.first() else {
        return answer.push("no library");
    };
    let start = Application {
        app: &library.app,
        loaded: &loaded,
    };
    let Some(mut tree) = start_app(rt, alloc, &table, &mut seat, &start, answer) else {
        return;
    };
    let mut site = Site {
        table: &table,
        seat: &mut seat,
        tree: &mut tree,
        loaded: &mut loaded,
        target: target.as_slice(),
        list,
    };
    push_script(rt, alloc, &mut site, case, answer);
}

fn push_script<R: Wait>(
    rt: &R,
    alloc: Global,
    site: &mut Site<'_>,
    case: &Case<'_>,
    answer: &mut Answer,
)
    requires seated { IsSeated site.old }
    requires nothing { HoldsNothing (view_in site.old) }
{
    let Some(pid) = Pid::new(0, 1) else {
        return answer.push("no such slot");
    };
    let mut pass = site.table.new_pass(&mut *site.seat);
    push_calls(site.table, &mut pass, pid, case.inputs, answer);
    answer.push(", ");
    push_outcome(rt, alloc, site, &mut pass, case, answer);
    push_calls(site.table, &mut pass, pid, case.behind, answer);
    if let Mode::Tree = case.mode {
        push_members(&*site.tree, answer);
    }
    site.table.take_back(&mut *site.seat, pass);
}

fn push_outcome<R: Wait>(
    rt: &R,
    alloc: Global,
    site: &mut Site<'_>,
    pass: &mut Pass,
    case: &Case<'_>,
    answer: &mut Answer,
)
    requires seated { IsSeated site.old }
    requires nothing { HoldsNothing (view_in site.old) }
    requires pass_table { pass.old.table ≡ site.old.table.now }
    ensures same { LendsSame site.old site.new }
    ensures seated { IsSeated site.new }
    ensures pass_table { pass.new.table ≡ pass.old.table }
{
    match (check(case.script), case.mode) {
        (Ok(()), Mode::Before) => push_before(rt, alloc, site, pass, case.script, answer),
        (Ok(()), Mode::Whole | Mode::Tree) => push_whole(rt, alloc, site, case.script, answer),
        (Err(fault), _) => answer.push_shown(&fault),
    }
}

fn push_before<R: Wait>(
    rt: &R,
    alloc: Global,
    site: &mut Site<'_>,
    pass: &mut Pass,
    script: &[Instr],
    answer: &mut Answer,
)
    requires seated { IsSeated site.old }
    requires nothing { HoldsNothing (view_in site.old) }
    requires pass_table { pass.old.table ≡ site.old.table.now }
    requires runnable { IsRunnable (script_of script.now) }
    ensures same { LendsSame site.old site.new }
    ensures seated { IsSeated site.new }
    ensures pass_table { pass.new.table ≡ pass.old.table }
{
    match run_before(rt, alloc, site, script) {
        Ok(armed) => {
            answer.push("armed");
            if let Some(pid) = Pid::new(0, 1) {
                push_call(site.table, pass, pid, 1, answer);
            }
            armed.roll_back(site);
        }
        Err(refused) => push_stopped(alloc, "refused ", refused.instr, &refused.cause, answer),
    }
}

// What the handler had seen and what was started at first is known to the proof.
fn push_whole<R: Wait>(
    rt: &R,
    alloc: Global,
    site: &mut Site<'_>,
    script: &[Instr],
    answer: &mut Answer,
)
    ghost start: { Start }
    requires seated { IsSeated site.old }
    requires nothing { HoldsNothing (view_in site.old) }
    requires runnable { IsRunnable (script_of script.now) }
    requires start { start_in site.old ≡ start }
    ensures same { LendsSame site.old site.new }
    ensures seated { IsSeated site.new }
{
    match run_before(rt, alloc, site, script) {
        Ok(armed) => match armed.run_after(rt, alloc, site) {
            Ok(Done) => push_loaded(alloc, &*site.loaded, answer),
            Err(failed) => push_stopped(alloc, "failed ", failed.instr, &failed.cause, answer),
        },
        Err(refused) => push_stopped(alloc, "refused ", refused.instr, &refused.cause, answer),
    }
}

fn push_members(tree: &Tree, answer: &mut Answer) {
    answer.push(", members:");
    for member in tree.members("ch_app") {
        answer.push(match member.state {
            MemberState::Ended => " -",
            MemberState::Process(_) | MemberState::Supervisor(_) => " ",
        });
        answer.push(member.id.as_str());
    }
}

fn push_loaded(alloc: Global, loaded: &Loaded, answer: &mut Answer) {
    answer.push("done:");
    match loaded.versions(alloc) {
        Ok(versions) => {
            for (name, vsn) in versions.as_slice() {
                answer.push(" ");
                answer.push(name);
                answer.push(" ");
                answer.push(vsn);
            }
        }
        Err(_) => answer.note_no_memory(),
    }
}

/// Appends how a script was stopped, at which instruction, and why.
pub(crate) fn push_stopped(
    alloc: Global,
    how: &str,
    instr: u32,
    cause: &Cause,
    answer: &mut Answer,
) {
    answer.push(how);
    answer.push_number(u64::from(instr));
    answer.push(" ");
    answer.push_made(&cause.text(alloc));
}
