//! Scripts of relups: `relup_exec`.
ghost use Rattle.std.specs.Prelude.{◌≡◌};
ghost use Rattle.held_processes.specs.Following.{HoldsNothing};
ghost use Rattle.relup_instruction.specs.Instruction.{script_of};
ghost use Rattle.relup_exec.specs.Outcome.{Start};
ghost use Rattle.relup_exec.specs.Sites.{IsSeated, start_in, view_in};
ghost use Rattle.relup_file.specs.Script.{IsRunnable};
ghost use Rattle.surface_cases.specs.Nodes.{IsSoundNode};

use rel_disk::Disk;
use rel_session::Node;
use relup_exec::{Cause, Done, Failed, Refused, Site, run_before};
use relup_file::{Instr, check, read_relup};
use std::alloc::Global;
use std::sync::Wait;
use text_cases::{Answer, first_word};

/// Appends what comes of a script on a node. The text is how far it goes and a relup, whose first upgrade has the script:
/// `roll_back` is up to its point of no return and back, and `run_after` is to its end. It leads to the release `B` of the node.
pub(crate) fn push_script<R: Wait, D: Disk>(
    rt: &R,
    alloc: Global,
    node: &mut Node<D>,
    words: &str,
    answer: &mut Answer,
)
    requires { IsSoundNode D.seen D.may_leave node.old }
{
    let (end, relup) = first_word(words);
    let (Ok(relup), Ok(list)) = (
        read_relup(alloc, relup.as_bytes()),
        node.handler.which_releases(),
    ) else {
        return answer.push("no relup");
    };
    let Some(entry) = relup.ups.first() else {
        return answer.push("no script");
    };
    let mut site = Site {
        table: &node.table,
        seat: &mut node.seat,
        tree: &mut node.tree,
        loaded: &mut node.loaded,
        target: list.libraries("B"),
        list,
    };
    push_checked(rt, alloc, &mut site, end, &entry.script, answer);
}

fn push_checked<R: Wait>(
    rt: &R,
    alloc: Global,
    site: &mut Site<'_>,
    end: &str,
    script: &[Instr],
    answer: &mut Answer,
)
    requires seated { IsSeated site.old }
    requires nothing { HoldsNothing (view_in site.old) }
{
    match (check(script), end) {
        (Ok(()), "roll_back") => push_rolled_back(rt, alloc, site, script, answer),
        (Ok(()), _) => push_carried_out(rt, alloc, site, script, answer),
        (Err(fault), _) => answer.push_shown(&fault),
    }
}

fn push_rolled_back<R: Wait>(
    rt: &R,
    alloc: Global,
    site: &mut Site<'_>,
    script: &[Instr],
    answer: &mut Answer,
)
    requires seated { IsSeated site.old }
    requires nothing { HoldsNothing (view_in site.old) }
    requires runnable { IsRunnable (script_of script.now) }
{
    match run_before(rt, alloc, site, script) {
        Ok(armed) => {
            armed.roll_back(site);
            answer.push("rolled back");
        }
        Err(Refused { instr, cause }) => push_stopped(alloc, "refused ", instr, &cause, answer),
    }
}

// What the handler had seen and what was started at first is known to the proof.
fn push_carried_out<R: Wait>(
    rt: &R,
    alloc: Global,
    site: &mut Site<'_>,
    script: &[Instr],
    answer: &mut Answer,
)
    ghost start: { Start }
    requires seated { IsSeated site.old }
    requires nothing { HoldsNothing (view_in site.old) }
    requires runnable { IsRunnable (script_of script.now) }
    requires start { start_in site.old ≡ start }
{
    match run_before(rt, alloc, site, script) {
        Ok(armed) => match armed.run_after(rt, alloc, site) {
            Ok(Done) => answer.push("done"),
            Err(Failed { instr, cause }) => push_stopped(alloc, "failed ", instr, &cause, answer),
        },
        Err(Refused { instr, cause }) => push_stopped(alloc, "refused ", instr, &cause, answer),
    }
}

// Appends at which instruction a script stopped, and why.
fn push_stopped(alloc: Global, how: &str, instr: u32, cause: &Cause, answer: &mut Answer) {
    answer.push_counted(how, u64::from(instr));
    answer.push(" ");
    answer.push_made(&cause.text(alloc));
}
