//! The calls of the libraries that a session makes.
ghost use Rattle.std.specs.Prelude.{IfOk};
ghost use Rattle.stop_cases.specs.Running.{IsSoundNode};

use crate::commands::follow;
use crate::lines::{REFUSED, push_lines};
use crate::running::{RunningNode, boots, creates};
use crate::runs::{CAPACITY, LOG, Session};
use file_source::Files;
use rel_disk::{Disk, MemDisk};
use rel_unpack::UnpackError;
use relup_command::relup_answer;
use std::alloc::{AllocError, Global};
use std::sync::Wait;
use text_cases::{Answer, CaseFiles, first_word};

/// Appends what the commands of a session answer, with ` | ` between them, and ` / ` between the lines of an answer. Its files are a
/// path, a blank and the bytes each. Where memory is refused to a call of a library, the answer begins with `NoMemory`, and after
/// a comma stands what the same call answers that is made again. A node that is dead after a command is booted at once.
pub(crate) fn push_calls<H: Wait>(
    rt: &H,
    alloc: Global,
    session: &Session,
    answer: &mut Answer,
) -> Result<(), AllocError> {
    let disk = MemDisk::new(alloc, CAPACITY, LOG)?;
    let files = CaseFiles {
        lines: session.files.as_bytes(),
    };
    drop(follow_all(rt, alloc, disk, &files, &session.commands, answer));
    Ok(())
}

// Follows the commands, and hands the disk back.
fn follow_all<H: Wait, D: Disk, F: Files>(
    rt: &H,
    alloc: Global,
    disk: D,
    files: &F,
    commands: &[String],
    answer: &mut Answer,
) -> D {
    let mut place = Err(disk);
    for command in commands {
        if !answer.text.is_empty() {
            answer.push(" | ");
        }
        place = follow_at(rt, alloc, place, files, command.as_str(), answer);
    }
    match place {
        Ok(node) => node.into_disk(),
        Err(disk) => disk,
    }
}

// Follows a command where a node runs, or where none does on this disk.
fn follow_at<H: Wait, D: Disk, F: Files>(
    rt: &H,
    alloc: Global,
    place: Result<RunningNode<D>, D>,
    files: &F,
    command: &str,
    answer: &mut Answer,
) -> Result<RunningNode<D>, D>
    requires { IfOk place (IsSoundNode D.seen D.may_leave) }
    ensures { IfOk result (IsSoundNode D.seen D.may_leave) }
{
    match place {
        Ok(node) => follow_on(rt, alloc, node, files, command, answer),
        Err(disk) => begin(rt, alloc, disk, files, command, answer),
    }
}

// Gives the node a command, and boots the node where it is dead after that.
fn follow_on<H: Wait, D: Disk, F: Files>(
    rt: &H,
    alloc: Global,
    node: RunningNode<D>,
    files: &F,
    command: &str,
    answer: &mut Answer,
) -> Result<RunningNode<D>, D>
    requires { IsSoundNode D.seen D.may_leave node }
    ensures { IfOk result (IsSoundNode D.seen D.may_leave) }
{
    let mut node = node;
    if command != "boot" {
        follow(rt, alloc, &mut node, files, command, answer);
        if !node.handler.is_dead() {
            return Ok(node);
        }
    }
    boots(rt, alloc, node.into_disk(), answer)
}

// Makes a node on this disk or boots the one that is there, or makes a relup, which needs none.
fn begin<H: Wait, D: Disk, F: Files>(
    rt: &H,
    alloc: Global,
    disk: D,
    files: &F,
    command: &str,
    answer: &mut Answer,
) -> Result<RunningNode<D>, D>
    ensures { IfOk result (IsSoundNode D.seen D.may_leave) }
{
    let (word, rest) = first_word(command);
    match word {
        "create" => creates(rt, alloc, disk, files, rest, answer),
        "relup" => {
            push_relup(alloc, files, rest, answer);
            Err(disk)
        }
        _ => boots(rt, alloc, disk, answer),
    }
}

// Appends the relup of these paths: of the release, of one that it comes from, and of one that it goes back to.
fn push_relup<F: Files>(alloc: Global, files: &F, paths: &str, answer: &mut Answer) {
    let (new, rest) = first_word(paths);
    let (up, down) = first_word(rest);
    match (path_of(alloc, up), path_of(alloc, down)) {
        (Ok(ups), Ok(downs)) => push_relup_of(alloc, files, new, &ups, &downs, answer),
        _ => answer.note_no_memory(),
    }
}

fn path_of(alloc: Global, path: &str) -> Result<Vec<String>, AllocError> {
    let mut paths = Vec::new(alloc);
    paths.push(String::from_str(alloc, path)?)?;
    Ok(paths)
}

// Makes the relup, again where memory is refused to that.
fn push_relup_of<F: Files>(
    alloc: Global,
    files: &F,
    new: &str,
    ups: &[String],
    downs: &[String],
    answer: &mut Answer,
) {
    let mut made = relup_answer(alloc, files, new, ups, downs);
    if let Err(UnpackError::NoMemory) = &made {
        answer.push(REFUSED);
        made = relup_answer(alloc, files, new, ups, downs);
    }
    match &made {
        Ok(lines) => push_lines(lines.as_str(), answer),
        Err(why) => answer.push_shown(why),
    }
}
