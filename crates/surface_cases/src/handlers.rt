//! The commands of a node: `rel_handler` and the boot of `rel_session`.
ghost use Rattle.std.specs.Prelude.{◌≤◌, IfOk, length};
ghost use Rattle.node_store.specs.State.{IsSound};
ghost use Rattle.surface_cases.specs.Nodes.{IsSoundNode};

use crate::disks::new_disk;
use crate::scripts::push_script;
use crate::terms::push_term;
use rel_disk::Disk;
use rel_handler::{Files, FilesError, Handler, HandlerError, InstallError, Installed};
use rel_session::{Node, boot};
use std::alloc::Global;
use std::sync::Wait;
use text_cases::{Answer, first_word};

/// The files of three releases, and of two versions of their application.
#[derive(Clone, Copy)]
pub(crate) struct SampleFiles;

impl Files for SampleFiles {
    ghost gives = { λ files path found. Unit {0} };

    fn read(&self, alloc: Global, path: &str) -> Result<Vec<u8>, FilesError> {
        let text = text_at(path);
        if text.is_empty() {
            return Err(FilesError::Missing);
        }
        if text.len() > 1_048_576 {
            return Err(FilesError::TooLarge);
        }
        match Vec::from_slice(alloc, text.as_bytes()) {
            Ok(bytes) => Ok(bytes),
            Err(_) => Err(FilesError::NoMemory),
        }
    }
}

// The text of the file of this path, which is empty where there is none.
fn text_at(path: &str) -> &'static str {
    match path {
        "releases/A/ch_rel.rel" => { r#"{release,{"ch_rel","A"},{erts,"14.2"},[{ch_app,"1"}]}."# }
        "releases/B/ch_rel.rel" => { r#"{release,{"ch_rel","B"},{erts,"14.2"},[{ch_app,"2"}]}."# }
        "releases/C/ch_rel.rel" => { r#"{release,{"ch_rel","C"},{erts,"14.2"},[{ch_app,"2"}]}."# }
        "releases/B/relup" => RELUP_B,
        "releases/C/relup" => RELUP_C,
        _ => text_of_library(path),
    }
}

fn text_of_library(path: &str) -> &'static str {
    match path {
        "lib/ch_app-1/ebin/ch_app.app" => {
            r#"{application,ch_app,[{vsn,"1"},{modules,[ch_sup,ch3,aux]},{mod,{ch_sup,[]}}]}."#
        }
        "lib/ch_app-2/ebin/ch_app.app" => {
            r#"{application,ch_app,[{vsn,"2"},{modules,[ch_sup,ch3,aux]},{mod,{ch_sup,[]}}]}."#
        }
        "lib/ch_app-1/ebin/ch_sup.mod" | "lib/ch_app-2/ebin/ch_sup.mod" => CH_SUP,
        "lib/ch_app-1/ebin/aux.mod" | "lib/ch_app-2/ebin/aux.mod" => {
            r#"{worker,aux,"1",0,[{add,1,5},{stop,5,9,99}]}."#
        }
        "lib/ch_app-1/ebin/ch3.mod" => r#"{worker,ch3,"1",0,[{add,1,1},{on,4,7,40,400}]}."#,
        "lib/ch_app-2/ebin/ch3.mod" => CH3_2,
        _ => "",
    }
}

const CH_SUP: &str =
    r#"{supervisor,ch_sup,"1",[{ch3,{ch3,start_link,[]},permanent,2000,worker,[ch3]},{aux,{aux,start_link,[]},transient,brutal_kill,worker,[aux]}]}."#;

const CH3_2: &str =
    r#"{worker,ch3,"2",100,[{add,1,2},{change,"1",[],[{3,103}]},{change,{down,"1"},[],[{103,3}]}]}."#;

const RELUP_B: &str =
    r#"{"B",[{"A",[],[{load_object_code,{ch_app,"2",[ch3]}},point_of_no_return,{suspend,[ch3]},{load,{ch3,brutal_purge,brutal_purge}},{code_change,up,[{ch3,[]}]},{resume,[ch3]}]}],[]}."#;

const RELUP_C: &str = r#"{"C",[{"B","same code",[point_of_no_return]}],[]}."#;

/// Appends what a node that is made of the first release answers to some commands, parted by `, `, each by its name and its word: a
/// path for `set_unpacked`, none for `start` and `which`, and else a version. A script may come after them, and ` | ` before it, as
/// [`push_script`] has it.
pub(crate) fn push_commands<R: Wait>(rt: &R, alloc: Global, words: &str, answer: &mut Answer) {
    match new_disk(alloc) {
        Ok(disk) => push_created(rt, alloc, disk, words, answer),
        Err(_) => answer.note_no_memory(),
    }
}

fn push_created<R: Wait, D: Disk + Drop>(
    rt: &R,
    alloc: Global,
    disk: D,
    words: &str,
    answer: &mut Answer,
) {
    match Handler::create(alloc, disk, &SampleFiles, "releases/A/ch_rel.rel") {
        Ok(handler) => push_booted(rt, alloc, handler.into_disk(), words, answer),
        Err((error, _disk)) => answer.push_shown(&error),
    }
}

fn push_booted<R: Wait, D: Disk + Drop>(
    rt: &R,
    alloc: Global,
    disk: D,
    words: &str,
    answer: &mut Answer,
) {
    match boot(rt, alloc, disk) {
        Ok(mut node) => {
            let (commands, script) = words.split_once(" | ").unwrap_or((words, ""));
            follow_all(rt, alloc, &mut node, commands, answer);
            if !script.is_empty() {
                push_script(rt, alloc, &mut node, script, answer);
            }
            let _disk = node.into_disk();
        }
        Err((_disk, error)) => answer.push_debug(&error),
    }
}

fn follow_all<R: Wait, D: Disk>(
    rt: &R,
    alloc: Global,
    node: &mut Node<D>,
    words: &str,
    answer: &mut Answer,
)
    requires { IsSoundNode D.seen D.may_leave node.old }
    ensures { IsSoundNode D.seen D.may_leave node.new }
{
    for command in words.split(", ") {
        follow(rt, alloc, node, command, answer);
        answer.push("; ");
    }
}

fn follow<R: Wait, D: Disk>(
    rt: &R,
    alloc: Global,
    node: &mut Node<D>,
    command: &str,
    answer: &mut Answer,
)
    requires { IsSoundNode D.seen D.may_leave node.old }
    ensures { IsSoundNode D.seen D.may_leave node.new }
{
    let (word, rest) = first_word(command);
    match word {
        "install_release" => push_installed(rt, alloc, node, rest, answer),
        "start" => push_start(alloc, &mut node.handler, answer),
        "check_install" | "which_releases" => ask(alloc, &node.handler, word, rest, answer),
        _ => change(alloc, &mut node.handler, word, rest, answer),
    }
}

fn push_installed<R: Wait, D: Disk>(
    rt: &R,
    alloc: Global,
    node: &mut Node<D>,
    vsn: &str,
    answer: &mut Answer,
)
    requires { IsSoundNode D.seen D.may_leave node.old }
    ensures { IsSoundNode D.seen D.may_leave node.new }
{
    match install_release(rt, alloc, node, vsn) {
        Ok(installed) => {
            answer.push_after(installed.other.as_str(), " ");
            push_term(alloc, &installed.descr, answer);
            answer.push_counted(" stale ", installed.stale.len() as u64);
        }
        Err(InstallError::Command(error)) => answer.push_shown(&error),
        Err(InstallError::Refused(failure)) => {
            answer.push("Refused ");
            answer.push_made(&failure.text(alloc));
        }
        Err(InstallError::MustReboot(failure)) => {
            answer.push("MustReboot ");
            answer.push_made(&failure.text(alloc));
        }
    }
}

fn install_release<R: Wait, D: Disk>(
    rt: &R,
    alloc: Global,
    node: &mut Node<D>,
    vsn: &str,
) -> Result<Installed, InstallError>
    requires { IsSoundNode D.seen D.may_leave node.old }
    ensures { IsSoundNode D.seen D.may_leave node.new }
{
    node.handler.install_release(
        rt,
        alloc,
        &node.table,
        &mut node.seat,
        &mut node.tree,
        &mut node.loaded,
        vsn,
    )
}

fn push_start<D: Disk>(alloc: Global, handler: &mut Handler<D>, answer: &mut Answer)
    requires { IsSound D.seen D.may_leave handler.old }
    ensures { IsSound D.seen D.may_leave handler.new }
{
    match handler.start(alloc) {
        Ok(start) => {
            answer.push_after(start.erts.as_str(), " ");
            answer.push(start.vsn.as_str());
        }
        Err(error) => answer.push_shown(&error),
    }
}

// What leaves the node as it is.
fn ask<D: Disk>(alloc: Global, handler: &Handler<D>, word: &str, vsn: &str, answer: &mut Answer) {
    match word {
        "check_install" => push_checked(alloc, handler, vsn, answer),
        _ => push_releases(handler, answer),
    }
}

fn push_checked<D: Disk>(alloc: Global, handler: &Handler<D>, vsn: &str, answer: &mut Answer) {
    match handler.check_install(vsn) {
        Ok(found) => {
            answer.push_after(found.other, " ");
            push_term(alloc, found.descr, answer);
        }
        Err(error) => answer.push_shown(&error),
    }
}

fn push_releases<D: Disk>(handler: &Handler<D>, answer: &mut Answer) {
    match handler.which_releases() {
        Ok(list) => {
            for listed in list.releases() {
                answer.push_after(listed.release.vsn.as_str(), " ");
                answer.push_after(listed.status.as_str(), " ");
            }
        }
        Err(error) => answer.push_shown(&error),
    }
}

fn change<D: Disk>(
    alloc: Global,
    handler: &mut Handler<D>,
    word: &str,
    rest: &str,
    answer: &mut Answer,
)
    requires { IsSound D.seen D.may_leave handler.old }
    ensures { IsSound D.seen D.may_leave handler.new }
{
    match word {
        "set_unpacked" => match handler.set_unpacked(alloc, &SampleFiles, rest) {
            Ok(vsn) => answer.push(vsn.as_str()),
            Err(error) => answer.push_shown(&error),
        },
        "make_permanent" => push_done(handler.make_permanent(alloc, rest), answer),
        "remove_release" => push_done(handler.remove_release(alloc, rest), answer),
        "reboot_old_release" => push_done(handler.reboot_old_release(alloc, rest), answer),
        _ => answer.push("no command"),
    }
}

fn push_done(done: Result<(), HandlerError>, answer: &mut Answer) {
    match done {
        Ok(()) => answer.push("ok"),
        Err(error) => answer.push_shown(&error),
    }
}
