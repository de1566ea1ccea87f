//! Where the node of a session lives.
ghost use Rattle.std.specs.Prelude.{◌≡◌, ◌⊎◌, false, Ok, Err, ◌++◌, string_bytes, IfOk, MatchResult};
ghost use Rattle.node_store.specs.State.{IsSound, is_dead, list_in};
ghost use Rattle.node_command.specs.Files.{Brings, IsOfFiles};
ghost use Rattle.rel_list.specs.Releases.{running};
ghost use Rattle.rel_unpack.specs.Unpacking.{Brought};
ghost use Rattle.session_input.specs.Commands.Command.{create};
ghost use Rattle.node_start.specs.Booting.{HasJustStarted};
ghost use Rattle.rel_session.specs.InMemory.{IsSoundPlace, IsNodeStarted, IsStartedOrNot};
ghost use Rattle.rel_session.specs.Node.{DiskState};
ghost use Rattle.node_answer.specs.Lines.{ok_line};
ghost use Rattle.rel_session.specs.Booting.{boot_line};
ghost use Rattle.rel_session.specs.Transition.{NodeReplies, releases_answer, version_of};
ghost use Rattle.rel_session.specs.Transition.Action.{boots_node};
ghost use Rattle.rel_session.specs.declared.unanswered.Unanswered.TheVariants.{NoMemory};

use crate::booted_node::BootedNode;
use crate::unanswered::Unanswered;
use file_source::Files;
use node_answer::{append_version, blank_line, refusal_line};
use node_command::{HandlerError, bring_release};
use node_listing::listing;
use node_processes::Processes;
use node_start::{Node, boot, start_node};
use rel_disk::Disk;
use rel_handler::{BootError, Handler};
use rel_list::ReleaseList;
use std::alloc::{AllocError, Global};
use std::sync::Wait;

/// A disk, and the node on it if one was made or booted.
pub enum Place<D: Disk> {
    /// A disk without a node.
    Idle(D),
    /// A node on its disk. It is dead once the device has failed it, or a script has failed after its point of no return.
    Made(BootedNode<D>),
}

impl<D: Disk> Place<D> {
    ghost use Rattle.rel_session.specs.InMemory.{disk_at, IsSoundPlace, IsAt, AnswersAfter, AnswersCommand};

    /// The disk.
    pub fn into_disk(self) -> D
        ensures { result ≡ disk_at self }
    {
        match self {
            Place::Idle(disk) => disk,
            Place::Made(node) => node.into_disk(),
        }
    }

    /// Makes a node with the release in the file of this path as its permanent one. The answer reports its version.
    pub fn create<R: Wait, F: Files>(
        self,
        rt: &R,
        alloc: Global,
        files: &F,
        path: &str,
    ) -> (Place<D>, Result<String, Unanswered>)
        requires { IsSoundPlace D.seen D.may_leave self }
        ensures sound { IsSoundPlace D.seen D.may_leave result.0 }
        ensures created { AnswersCommand D.Disk (F.gives files.now) (create path.now)
            result.1 self result.0 }
    {
        let disk = match self {
            Place::Idle(disk) => disk,
            Place::Made(node) => {
                let why = existing(alloc, files, path);
                return (Place::Made(node), Err(Unanswered::Refused(why)));
            }
        };
        let line = match blank_line(alloc) {
            Ok(line) => line,
            Err(_) => return (Place::Idle(disk), Err(Unanswered::NoMemory)),
        };
        match Handler::create(alloc, disk, files, path) {
            Ok(handler) => {
                let (place, answer) = started(rt, alloc, handler, line);
                (place, answer_of(answer))
            }
            Err((why, disk)) => (Place::Idle(disk), Err(Unanswered::Refused(why))),
        }
    }

    /// Boots the node. The answer is a line, which stands after `text`.
    pub fn boot<R: Wait>(
        self,
        rt: &R,
        alloc: Global,
        text: String,
    ) -> (Place<D>, Result<String, AllocError>)
        requires { IsSoundPlace D.seen D.may_leave self }
        ensures sound { IsSoundPlace D.seen D.may_leave result.0 }
        ensures booted { AnswersAfter D.Disk (string_bytes text)
            (λ p a. NodeReplies p boots_node a) result.1 self result.0 }
    {
        match boot(rt, alloc, self.into_disk()) {
            Ok(node) => reported(node, text),
            Err((disk, error)) => (Place::Idle(disk), append_boot_refusal(text, error)),
        }
    }

    /// The lines that list the releases.
    pub fn releases(&self, alloc: Global) -> Result<String, AllocError>
        ensures { IfOk result (λ text.
            (p : DiskState) → IsAt D.Disk self.now p → string_bytes text ≡ releases_answer p) }
    {
        let Place::Made(node) = self else {
            return refusal_line(alloc, &HandlerError::Dead);
        };
        match node.handler.which_releases() {
            Ok(list) => listing(alloc, list),
            Err(error) => refusal_line(alloc, &error),
        }
    }
}

/// Starts the processes of a node that was just made. The answer, after `text`, reports its version, or that memory was refused
/// to them: no node runs then.
fn started<D: Disk, R: Wait>(
    rt: &R,
    alloc: Global,
    handler: Handler<D>,
    text: String,
) -> (Place<D>, Result<String, AllocError>)
    requires sound { IsSound D.seen D.may_leave handler }
    requires works { is_dead handler ≡ false }
    ensures sound { IsSoundPlace D.seen D.may_leave result.0 }
    ensures started { IsStartedOrNot handler (string_bytes text) result.1 result.0 }
{
    match start_node(rt, alloc, handler) {
        Ok(node) => reported(node, text),
        Err(disk) => (
            Place::Idle(disk),
            append_boot_refusal(text, BootError::NoMemory),
        ),
    }
}

/// The node that has booted. The answer, after `text`, reports the version that runs.
fn reported<D: Disk>(node: Node<D>, text: String) -> (Place<D>, Result<String, AllocError>)
    requires sound { IsSound D.seen D.may_leave node.handler }
    requires works { is_dead node.handler ≡ false }
    requires started { HasJustStarted node }
    ensures sound { IsSoundPlace D.seen D.may_leave result.0 }
    ensures started { IsNodeStarted node.handler (string_bytes text) result.1 result.0 }
{
    let line = append_running(text, &node.handler);
    let Node {
        handler,
        table,
        seat,
        tree,
        loaded,
    } = node;
    let processes = Processes {
        table,
        seat,
        tree,
        loaded,
    };
    (Place::Made(BootedNode { handler, processes }), line)
}

/// This text, and after it the line that reports the version that runs.
fn append_running<D: Disk>(text: String, handler: &Handler<D>) -> Result<String, AllocError>
    requires { is_dead handler.now ≡ false }
    ensures { IfOk result (λ line. string_bytes line
        ≡ string_bytes text ++ ok_line (version_of (running (list_in handler.now)))) }
{
    let Ok(list) = handler.which_releases() else {
        unreachable!();
    };
    append_version(text, running_version(list))
}

/// Why no node is made where there is one: its files are read first.
fn existing<F: Files>(alloc: Global, files: &F, path: &str) -> HandlerError
    ensures { IsOfFiles (F.gives files.now) path.now result
        ⊎ ((result ≡ HandlerError.Exists)
        × ((b : Brought) × Brings (F.gives files.now) path.now (Ok b))) }
{
    match bring_release(alloc, files, path) {
        Ok(_brought) => HandlerError::Exists,
        Err(error) => error,
    }
}

/// A line as an answer.
pub(crate) fn answer_of(line: Result<String, AllocError>) -> Result<String, Unanswered>
    ensures same { MatchResult line (λ text. result ≡ Ok text)
        (λ _. result ≡ Err NoMemory) }
{
    Ok(line?)
}

/// The version of the release that runs, and nothing where none does.
fn running_version(list: &ReleaseList) -> &str
    ensures { result.now ≡ version_of (running list.now) }
{
    match list.running() {
        Some(release) => release.vsn.as_str(),
        None => "",
    }
}

/// This text, and after it the line that reports why a boot is refused.
fn append_boot_refusal(text: String, error: BootError) -> Result<String, AllocError>
    ensures { IfOk result (λ line. string_bytes line ≡ string_bytes text ++ boot_line error) }
{
    let refusal = match error {
        BootError::NotAStore => "error boot 1 NotAStore\n",
        BootError::Damaged(_) => "error boot 2 Damaged\n",
        BootError::Device => "error boot 3 Device\n",
        BootError::NoMemory => "error boot 4 NoMemory\n",
        BootError::BadRecord(_) => "error boot 5 BadRecord\n",
    };
    let mut line = text;
    line.push_str(refusal)?;
    Ok(line)
}
