//! What a node that runs answers to a command.
ghost use Rattle.std.specs.Prelude.{◌≡◌};
ghost use Rattle.node_store.specs.State.{IsSound};
ghost use Rattle.node_processes.specs.InMemory.{AreSound};
ghost use Rattle.stop_cases.specs.Running.{IsSoundNode};

use crate::lines::{REFUSED, push_lines, push_made_lines};
use crate::running::RunningNode;
use file_source::Files;
use node_answer::{installed_line, refusal_line, start_line};
use node_command::HandlerError;
use node_listing::listing;
use node_processes::Processes;
use node_upgrade::{InstallError, Installed, ScriptFailure};
use rel_disk::Disk;
use rel_handler::Handler;
use std::alloc::Global;
use std::sync::Wait;
use text_cases::{Answer, first_word};

/// Gives the node a command, and gives it again, once, where memory is refused to that. Appends the node's answer.
pub(crate) fn follow<H: Wait, D: Disk, F: Files>(
    rt: &H,
    alloc: Global,
    node: &mut RunningNode<D>,
    files: &F,
    command: &str,
    answer: &mut Answer,
)
    requires { IsSoundNode D.seen D.may_leave node.old }
    ensures { IsSoundNode D.seen D.may_leave node.new }
{
    let mut done = follow_once(rt, alloc, node, files, command, answer);
    if let Err(HandlerError::NoMemory) = &done {
        answer.push(REFUSED);
        done = follow_once(rt, alloc, node, files, command, answer);
    }
    if let Err(why) = &done {
        push_made_lines(&refusal_line(alloc, why), answer);
    }
}

fn follow_once<H: Wait, D: Disk, F: Files>(
    rt: &H,
    alloc: Global,
    node: &mut RunningNode<D>,
    files: &F,
    command: &str,
    answer: &mut Answer,
) -> Result<(), HandlerError>
    requires { IsSoundNode D.seen D.may_leave node.old }
    ensures { IsSoundNode D.seen D.may_leave node.new }
{
    let (word, rest) = first_word(command);
    match word {
        "install" => install(rt, alloc, node, rest, answer),
        "call" | "peek" | "modules" => ask(rt, alloc, &mut node.processes, word, rest, answer),
        _ => change(alloc, &mut node.handler, files, word, rest, answer),
    }
}

// Installs a release by its script. After one that leaves the node dead the answer of its boot is to follow.
fn install<H: Wait, D: Disk>(
    rt: &H,
    alloc: Global,
    node: &mut RunningNode<D>,
    vsn: &str,
    answer: &mut Answer,
) -> Result<(), HandlerError>
    requires { IsSoundNode D.seen D.may_leave node.old }
    ensures { IsSoundNode D.seen D.may_leave node.new }
{
    match install_release(rt, alloc, node, vsn) {
        Ok(installed) => push_made_lines(&installed_line(alloc, &installed), answer),
        Err(InstallError::Command(why)) => return Err(why),
        Err(InstallError::Refused(failure)) => push_failure(alloc, "14 Refused ", &failure, answer),
        Err(InstallError::MustReboot(failure)) => {
            push_failure(alloc, "15 MustReboot ", &failure, answer);
        }
    }
    if node.handler.is_dead() {
        answer.push(" / ");
    }
    Ok(())
}

fn install_release<H: Wait, D: Disk>(
    rt: &H,
    alloc: Global,
    node: &mut RunningNode<D>,
    vsn: &str,
) -> Result<Installed, InstallError>
    requires sound { IsSoundNode D.seen D.may_leave node.old }
    ensures sound { IsSoundNode D.seen D.may_leave node.new }
{
    let processes = &mut node.processes;
    node.handler.install_release(
        rt,
        alloc,
        &processes.table,
        &mut processes.seat,
        &mut processes.tree,
        &mut processes.loaded,
        vsn,
    )
}

// Appends at which instruction a script ended, and why.
fn push_failure(alloc: Global, name: &str, failure: &ScriptFailure, answer: &mut Answer) {
    answer.push_after("error handler ", name);
    answer.push_made(&failure.text(alloc));
}

// Asks the processes. A call that was made isn't made again: memory for what it answers is memory of the case.
fn ask<H: Wait>(
    rt: &H,
    alloc: Global,
    processes: &mut Processes,
    word: &str,
    rest: &str,
    answer: &mut Answer,
) -> Result<(), HandlerError>
    requires { AreSound processes.old }
    ensures { AreSound processes.new }
{
    let (app, rest) = first_word(rest);
    let (id, input) = first_word(rest);
    match word {
        "call" => {
            let input = input.parse::<u32>().unwrap_or(0);
            push_made_lines(&processes.call(rt, alloc, app, id, input), answer);
        }
        "peek" => push_lines(processes.peek(rt, alloc, app, id)?.as_str(), answer),
        _ => push_lines(processes.list_modules(alloc)?.as_str(), answer),
    }
    Ok(())
}

// Asks the handler for a change, or for what it lists. What a reboot answers is the answer of its boot.
fn change<D: Disk, F: Files>(
    alloc: Global,
    handler: &mut Handler<D>,
    files: &F,
    word: &str,
    rest: &str,
    answer: &mut Answer,
) -> Result<(), HandlerError>
    requires { IsSound D.seen D.may_leave handler.old }
    ensures { IsSound D.seen D.may_leave handler.new }
{
    match word {
        "set_unpacked" => unpack(alloc, handler, files, rest, answer),
        "permanent" => push_done(handler.make_permanent(alloc, rest), answer),
        "remove" => push_done(handler.remove_release(alloc, rest), answer),
        "reboot_old" => handler.reboot_old_release(alloc, rest),
        "start" => start(alloc, handler, answer),
        _ => list(alloc, handler, word, answer),
    }
}

fn unpack<D: Disk, F: Files>(
    alloc: Global,
    handler: &mut Handler<D>,
    files: &F,
    path: &str,
    answer: &mut Answer,
) -> Result<(), HandlerError>
    requires { IsSound D.seen D.may_leave handler.old }
    ensures { IsSound D.seen D.may_leave handler.new }
{
    let vsn = handler.set_unpacked(alloc, files, path)?;
    answer.push_after("ok ", vsn.as_str());
    Ok(())
}

fn push_done(done: Result<(), HandlerError>, answer: &mut Answer) -> Result<(), HandlerError> {
    if done.is_ok() {
        answer.push("ok");
    }
    done
}

fn start<D: Disk>(
    alloc: Global,
    handler: &mut Handler<D>,
    answer: &mut Answer,
) -> Result<(), HandlerError>
    requires { IsSound D.seen D.may_leave handler.old }
    ensures { IsSound D.seen D.may_leave handler.new }
{
    let start = handler.start(alloc)?;
    push_made_lines(&start_line(alloc, &start), answer);
    Ok(())
}

fn list<D: Disk>(
    alloc: Global,
    handler: &Handler<D>,
    word: &str,
    answer: &mut Answer,
) -> Result<(), HandlerError> {
    match word {
        "releases" => push_made_lines(&listing(alloc, handler.which_releases()?), answer),
        _ => answer.push("no such command"),
    }
    Ok(())
}
