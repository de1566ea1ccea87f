//! A node that runs, and how it begins to.
ghost use Rattle.std.specs.Prelude.{IfOk};
ghost use Rattle.stop_cases.specs.Running.{IsSoundNode};

use crate::lines::{REFUSED, push_made_lines};
use file_source::Files;
use node_answer::refusal_line;
use node_command::HandlerError;
use node_processes::Processes;
use node_start::{Node, boot};
use rel_disk::Disk;
use rel_handler::{BootError, Handler};
use std::alloc::Global;
use std::sync::Wait;
use text_cases::Answer;

/// A node that runs: the handler of its releases, and its processes.
pub(crate) struct RunningNode<D: Disk> {
    pub(crate) handler: Handler<D>,
    pub(crate) processes: Processes,
}

impl<D: Disk> RunningNode<D> {
    /// The disk.
    pub(crate) fn into_disk(self) -> D {
        let RunningNode {
            handler,
            processes: _,
        } = self;
        handler.into_disk()
    }
}

/// Makes a node with the release in the file of this path, and boots it. Appends the version that runs, or why none does.
pub(crate) fn creates<H: Wait, D: Disk, F: Files>(
    rt: &H,
    alloc: Global,
    disk: D,
    files: &F,
    path: &str,
    answer: &mut Answer,
) -> Result<RunningNode<D>, D>
    ensures { IfOk result (IsSoundNode D.seen D.may_leave) }
{
    match made(alloc, disk, files, path, answer) {
        Ok(handler) => boots(rt, alloc, handler.into_disk(), answer),
        Err((why, disk)) => {
            push_made_lines(&refusal_line(alloc, &why), answer);
            Err(disk)
        }
    }
}

// A node is made, again where memory is refused to that.
fn made<D: Disk, F: Files>(
    alloc: Global,
    disk: D,
    files: &F,
    path: &str,
    answer: &mut Answer,
) -> Result<Handler<D>, (HandlerError, D)> {
    match Handler::create(alloc, disk, files, path) {
        Err((why, disk)) if matches!(why, HandlerError::NoMemory) => {
            answer.push(REFUSED);
            Handler::create(alloc, disk, files, path)
        }
        done => done,
    }
}

/// Boots the node on this disk, again where memory is refused to that. Appends the version that runs, or why none does.
pub(crate) fn boots<H: Wait, D: Disk>(
    rt: &H,
    alloc: Global,
    disk: D,
    answer: &mut Answer,
) -> Result<RunningNode<D>, D>
    ensures { IfOk result (IsSoundNode D.seen D.may_leave) }
{
    match boot_once(rt, alloc, disk) {
        Err((disk, why)) if matches!(why, BootError::NoMemory) => {
            answer.push(REFUSED);
            reported(boot_once(rt, alloc, disk), answer)
        }
        done => reported(done, answer),
    }
}

// The node of a boot, or its disk. Appends which it is.
fn reported<D: Disk>(
    booted: Result<RunningNode<D>, (D, BootError)>,
    answer: &mut Answer,
) -> Result<RunningNode<D>, D>
    requires { IfOk booted (IsSoundNode D.seen D.may_leave) }
    ensures { IfOk result (IsSoundNode D.seen D.may_leave) }
{
    match booted {
        Ok(node) => {
            push_running(&node.handler, answer);
            Ok(node)
        }
        Err((disk, why)) => {
            answer.push_debug(&why);
            Err(disk)
        }
    }
}

// Appends the version of the release that runs.
fn push_running<D: Disk>(handler: &Handler<D>, answer: &mut Answer) {
    match handler.which_releases() {
        Ok(list) => {
            if let Some(release) = list.running() {
                answer.push_after("ok ", release.vsn.as_str());
            }
        }
        Err(why) => answer.push_shown(&why),
    }
}

// The node on this disk, if it boots.
fn boot_once<H: Wait, D: Disk>(
    rt: &H,
    alloc: Global,
    disk: D,
) -> Result<RunningNode<D>, (D, BootError)>
    ensures { IfOk result (IsSoundNode D.seen D.may_leave) }
{
    match boot(rt, alloc, disk) {
        Ok(node) => {
            let Node {
                handler,
                table,
                seat,
                tree,
                loaded,
            } = node;
            let processes = Processes {
                table,
                seat,
                tree,
                loaded,
            };
            Ok(RunningNode { handler, processes })
        }
        Err(refused) => Err(refused),
    }
}
