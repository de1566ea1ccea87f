//! What a node answers.
ghost use Rattle.std.specs.Prelude.{◌≡◌, map, string_bytes};
ghost use Rattle.session_input.specs.Commands.{command_of};
ghost use Rattle.session_input.specs.Commands.Command.{relup};
ghost use Rattle.rel_session.specs.InMemory.{IsSoundNode, IsSoundPlace, AsksNode, NeedsNode, Answers, AnswersCommand, ReportsRelup};
ghost use Rattle.rel_session.specs.Transition.{Transition};
ghost use Rattle.rel_session.specs.declared.place.Place.TheVariants.{Made};

use crate::booted_node::BootedNode;
use crate::change::{make_permanent, remove, set_unpacked};
use crate::check::check_install;
use crate::place::{Place, answer_of};
use crate::processes::{call, flood, list_modules, list_processes, peek};
use crate::start::start;
use crate::unanswered::Unanswered;
use file_source::Files;
use node_answer::blank_line;
use node_command::HandlerError;
use rel_disk::Disk;
use rel_unpack::UnpackError;
use relup_command::relup_answer;
use session_input::Command;
use std::alloc::Global;
use std::sync::Wait;
use std::thread::Threads;

impl<D: Disk> Place<D> {
    /// Carries out the command, with the files that it names.
    pub fn answer<R: Threads + Wait + Sync, F: Files>(
        self,
        rt: &R,
        alloc: Global,
        files: &F,
        command: &Command,
    ) -> (Place<D>, Result<String, Unanswered>)
        requires sound { IsSoundPlace D.seen D.may_leave self }
        requires asked { AsksNode command.now }
        ensures sound { IsSoundPlace D.seen D.may_leave result.0 }
        ensures answered { AnswersCommand D.Disk (F.gives files.now)
            (command_of command.now) result.1 self result.0 }
    {
        match command {
            Command::Create(path) => self.create(rt, alloc, files, path.as_str()),
            Command::Install(vsn) => self.install(rt, alloc, vsn.as_str()),
            Command::RebootOld(vsn) => self.reboot_old(rt, alloc, vsn.as_str()),
            Command::Boot => match blank_line(alloc) {
                Ok(line) => {
                    let (place, answer) = self.boot(rt, alloc, line);
                    (place, answer_of(answer))
                }
                Err(_) => (self, Err(Unanswered::NoMemory)),
            },
            Command::Releases => {
                let lines = self.releases(alloc);
                (self, answer_of(lines))
            }
            Command::Relup(new, ups, downs) => self.relup(alloc, files, new.as_str(), ups, downs),
            Command::Bad => (
                self,
                answer_of(String::from_str(alloc, "error session 1 BadCommand\n")),
            ),
            Command::SetUnpacked(_)
            | Command::Check(_)
            | Command::Permanent(_)
            | Command::Remove(_)
            | Command::Start
            | Command::Procs
            | Command::Modules
            | Command::Peek(_, _)
            | Command::Call(_, _, _)
            | Command::Flood(_, _, _, _) => self.on_node(rt, alloc, files, command),
            Command::File(_, _) | Command::Quit => unreachable!(),
        }
    }

    /// Carries out the command on the node. Where there is no node, nothing is done.
    fn on_node<R: Threads + Wait + Sync, F: Files>(
        self,
        rt: &R,
        alloc: Global,
        files: &F,
        command: &Command,
    ) -> (Place<D>, Result<String, Unanswered>)
        requires sound { IsSoundPlace D.seen D.may_leave self }
        requires asked { NeedsNode (command_of command.now) }
        ensures sound { IsSoundPlace D.seen D.may_leave result.0 }
        ensures answered { Answers D.Disk
            (λ p a. Transition (F.gives files.now) p (command_of command.now) a)
            result.1 self result.0 }
    {
        match self {
            Place::Idle(disk) => (
                Place::Idle(disk),
                Err(Unanswered::Refused(HandlerError::Dead)),
            ),
            Place::Made(mut node) => {
                let done = done_by(rt, alloc, &mut node, files, command);
                (Place::Made(node), done)
            }
        }
    }

    /// Makes the relup of the release in the file of the path `new`, up from those of `ups` and down to those of `downs`. It
    /// asks nothing of the node.
    fn relup<F: Files>(
        self,
        alloc: Global,
        files: &F,
        new: &str,
        ups: &[String],
        downs: &[String],
    ) -> (Place<D>, Result<String, Unanswered>)
        ensures place { result.0 ≡ self }
        ensures made { Answers D.Disk
            (λ p a. Transition (F.gives files.now) p (relup new.now
            (map string_bytes ups.now) (map string_bytes downs.now)) a)
            result.1 self result.0 }
    {
        let made = relup_answer(alloc, files, new, ups, downs);
        (self, relup_line(alloc, made))
    }
}

/// Carries out the command on a node, unless the node is dead.
fn done_by<D: Disk, R: Threads + Wait + Sync, F: Files>(
    rt: &R,
    alloc: Global,
    node: &mut BootedNode<D>,
    files: &F,
    command: &Command,
) -> Result<String, Unanswered>
    requires sound { IsSoundNode D.seen D.may_leave node.old }
    requires asked { NeedsNode (command_of command.now) }
    ensures sound { IsSoundNode D.seen D.may_leave node.new }
    ensures answered { Answers D.Disk
        (λ p a. Transition (F.gives files.now) p (command_of command.now) a)
        result (Made node.old) (Made node.new) }
{
    if node.handler.is_dead() {
        return Err(Unanswered::Refused(HandlerError::Dead));
    }
    match command {
        Command::SetUnpacked(path) => set_unpacked(alloc, node, files, path.as_str()),
        Command::Check(vsn) => check_install(alloc, node, vsn.as_str()),
        Command::Permanent(vsn) => make_permanent(alloc, node, vsn.as_str()),
        Command::Remove(vsn) => remove(alloc, node, vsn.as_str()),
        Command::Start => start(alloc, node),
        Command::Procs => list_processes(rt, alloc, node),
        Command::Modules => list_modules(alloc, node),
        Command::Peek(app, id) => peek(rt, alloc, node, app.as_str(), id.as_str()),
        Command::Call(app, id, input) => call(rt, alloc, node, app.as_str(), id.as_str(), *input),
        Command::Flood(app, id, input, times) => {
            flood(rt, alloc, node, app.as_str(), id.as_str(), *input, *times)
        }
        Command::File(_, _)
        | Command::Create(_)
        | Command::Install(_)
        | Command::RebootOld(_)
        | Command::Boot
        | Command::Releases
        | Command::Relup(_, _, _)
        | Command::Quit
        | Command::Bad => unreachable!(),
    }
}

/// What is answered to the request of a relup, which may have had no memory.
fn relup_line(alloc: Global, made: Result<String, UnpackError>) -> Result<String, Unanswered>
    ensures { ReportsRelup made result }
{
    match made {
        Ok(text) => Ok(text),
        Err(UnpackError::NoMemory) => {
            answer_of(String::from_str(alloc, "error relup 7 NoMemory\n"))
        }
        Err(why) => Err(Unanswered::Refused(HandlerError::from(why))),
    }
}
