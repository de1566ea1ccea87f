//! What a node on a disk answers.
ghost use Rattle.node_store.specs.State.{IsSound};

use crate::files::ReleaseFiles;
use crate::steps::push_start;
use loaded_modules::Loaded;
use node_command::HandlerError;
use node_upgrade::{InstallError, ScriptFailure};
use proc_table::ProcTable;
use rel_disk::Disk;
use rel_handler::{BootError, Handler, boot};
use std::alloc::Global;
use std::sync::Wait;
use sup_tree::Tree;
use text_cases::{Answer, first_word};

// Appends the versions with their statuses, in order, or why the node doesn't list them.
fn push_releases<D: Disk>(node: &Handler<D>, answer: &mut Answer) {
    match node.which_releases() {
        Ok(list) => {
            for listed in list.releases() {
                answer.push_after(listed.release.vsn.as_str(), " ");
                answer.push_after(listed.status.as_str(), ";");
            }
        }
        Err(error) => answer.push_shown(&error),
    }
}

// Gives the node a further release with `set_unpacked`, and appends its version.
fn unpack<D: Disk>(alloc: Global, node: &mut Handler<D>, release: &str, answer: &mut Answer)
    requires { IsSound D.seen D.may_leave node.old }
    ensures { IsSound D.seen D.may_leave node.new }
{
    match node.set_unpacked(alloc, &ReleaseFiles, release) {
        Ok(vsn) => answer.push_after("took ", vsn.as_str()),
        Err(error) => answer.push_shown(&error),
    }
}

// Installs the release of this version where no process runs, and appends the version that the script's entry has.
fn install<H: Wait, D: Disk>(
    rt: &H,
    alloc: Global,
    node: &mut Handler<D>,
    vsn: &str,
    answer: &mut Answer,
)
    requires { IsSound D.seen D.may_leave node.old }
    ensures { IsSound D.seen D.may_leave node.new }
{
    let Ok((table, mut seat)) = ProcTable::new(alloc) else {
        return answer.note_no_memory();
    };
    let mut tree = Tree::new(alloc);
    let mut loaded = Loaded::new(alloc);
    match node.install_release(rt, alloc, &table, &mut seat, &mut tree, &mut loaded, vsn) {
        Ok(installed) => answer.push_after("other ", installed.other.as_str()),
        Err(error) => push_refused(alloc, &error, answer),
    }
}

// Appends why a release isn't installed.
fn push_refused(alloc: Global, error: &InstallError, answer: &mut Answer) {
    match error {
        InstallError::Command(why) => answer.push_shown(why),
        InstallError::Refused(failure) => push_failure(alloc, "Refused ", failure, answer),
        InstallError::MustReboot(failure) => push_failure(alloc, "MustReboot ", failure, answer),
    }
}

fn push_failure(alloc: Global, name: &str, failure: &ScriptFailure, answer: &mut Answer) {
    answer.push(name);
    answer.push_made(&failure.text(alloc));
}

// Appends what it reports of its start record.
fn report_start<D: Disk>(alloc: Global, node: &mut Handler<D>, answer: &mut Answer)
    requires { IsSound D.seen D.may_leave node.old }
    ensures { IsSound D.seen D.may_leave node.new }
{
    match node.start(alloc) {
        Ok(start) => {
            answer.push("starts ");
            push_start(&start, answer);
        }
        Err(error) => answer.push_shown(&error),
    }
}

// Appends that it did something, or why it refused.
fn push_done(done: Result<(), HandlerError>, answer: &mut Answer) {
    match done {
        Ok(()) => answer.push("ok"),
        Err(error) => answer.push_shown(&error),
    }
}

// Gives the node a command, where there is one, and appends its answer, with a blank before it.
fn follow_command<H: Wait, D: Disk>(
    rt: &H,
    alloc: Global,
    node: &mut Handler<D>,
    word: &str,
    answer: &mut Answer,
)
    requires { IsSound D.seen D.may_leave node.old }
    ensures { IsSound D.seen D.may_leave node.new }
{
    let mut rest = word.chars();
    let Some(sign) = rest.next() else {
        return;
    };
    let vsn = rest.as_str();
    answer.push(" ");
    match sign {
        '?' => report_start(alloc, node, answer),
        '+' => install(rt, alloc, node, vsn, answer),
        '!' => push_done(node.make_permanent(alloc, vsn), answer),
        '<' => push_done(node.reboot_old_release(alloc, vsn), answer),
        '-' => push_done(node.remove_release(alloc, vsn), answer),
        _ => unpack(alloc, node, word, answer),
    }
}

// Appends its releases, and where commands are given, what it answers to each of at most three,
// whether it is dead then, and its releases.
fn push_followed<H: Wait, D: Disk>(
    rt: &H,
    alloc: Global,
    node: &mut Handler<D>,
    commands: &str,
    answer: &mut Answer,
)
    requires { IsSound D.seen D.may_leave node.old }
{
    push_releases(node, answer);
    if !commands.is_empty() {
        let (first, more) = first_word(commands);
        let (second, third) = first_word(more);
        follow_command(rt, alloc, node, first, answer);
        follow_command(rt, alloc, node, second, answer);
        follow_command(rt, alloc, node, third, answer);
        answer.push(if node.is_dead() { " dead " } else { " open " });
        push_releases(node, answer);
    }
}

// Gives the node these commands; or, with `unpack`, a further release and nothing more.
fn follow_node<H: Wait, D: Disk + Drop>(
    rt: &H,
    alloc: Global,
    node: Handler<D>,
    how: &str,
    words: &str,
    answer: &mut Answer,
) -> D
    requires { IsSound D.seen D.may_leave node }
{
    let mut node = node;
    match how {
        "unpack" => unpack(alloc, &mut node, words, answer),
        _ => push_followed(rt, alloc, &mut node, words, answer),
    }
    node.into_disk()
}

/// What a node answers that is made of the first of these words, a release, on this disk and given
/// the others as commands, or why none is made. Hands the disk back, as the others do.
pub(crate) fn create_node<H: Wait, D: Disk + Drop>(
    rt: &H,
    alloc: Global,
    disk: D,
    words: &str,
    answer: &mut Answer,
) -> D {
    let (first, more) = first_word(words);
    match Handler::create(alloc, disk, &ReleaseFiles, first) {
        Ok(node) => follow_node(rt, alloc, node, "node", more, answer),
        Err((error, disk)) => {
            answer.push_shown(&error);
            disk
        }
    }
}

/// What the node on this disk answers that is given these words as commands, or with `unpack` to a
/// further release and no more, or why it isn't booted.
pub(crate) fn boots<H: Wait, D: Disk + Drop>(
    rt: &H,
    alloc: Global,
    disk: D,
    how: &str,
    words: &str,
    answer: &mut Answer,
) -> D {
    match boot(alloc, disk) {
        Ok(node) => follow_node(rt, alloc, node, how, words, answer),
        Err((error, disk)) => {
            answer.push_debug(&error);
            disk
        }
    }
}

// Whether a node has releases, and three at most.
fn has_up_to_three<D: Disk>(node: &Handler<D>) -> bool {
    match node.which_releases() {
        Ok(list) => matches!(list.len(), 1 | 2 | 3),
        Err(_) => false,
    }
}

/// Whether this disk is booted to three releases at most, or refused for what it holds: neither the
/// device nor memory failed.
pub(crate) fn is_explained<D: Disk + Drop>(alloc: Global, disk: D) -> bool {
    match boot(alloc, disk) {
        Ok(node) => {
            let is_explained = has_up_to_three(&node);
            drop(node.into_disk());
            is_explained
        }
        Err((error, _disk)) => !matches!(error, BootError::Device | BootError::NoMemory),
    }
}
