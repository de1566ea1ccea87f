//! The node of a session.
ghost use Rattle.std.specs.Prelude.{◌≡◌, codes, Ok, Err, Some, string_bytes, IfOk, IfErr, OnOk, MatchResult};
ghost use Rattle.session_input.specs.Commands.{command_of, given_of};
ghost use Rattle.rel_session.specs.Files.{files_of, no_files, give};
ghost use Rattle.rel_session.specs.InMemory.{IsLine, IsText};
ghost use Rattle.rel_session.specs.Transition.{memory_line};
ghost use Rattle.rel_session.specs.declared.place.Place.TheVariants.{Idle};
ghost use Rattle.rel_session.specs.declared.unanswered.Unanswered.TheVariants.{Refused};

use crate::given_files::{GivenFiles, SessionFiles};
use crate::place::Place;
use crate::unanswered::Unanswered;
use file_source::Files;
use node_answer::refusal_line;
use node_command::HandlerError;
use rel_disk::Disk;
use session_input::{Command, GivenFile, SessionError};
use std::alloc::{AllocError, Global};
use std::sync::Wait;
use std::thread::Threads;

/// The node of a session: the disk that it is on, and the files that were given.
pub struct SessionNode<D: Disk> {
    place: Place<D>,
    files: GivenFiles,
}

impl<D: Disk> SessionNode<D> {
    ghost use Rattle.rel_session.specs.InMemory.{disk_of, IsSoundPlace, FollowsCommand};

    /// No node was made or booted on the disk yet, and no file was given.
    pub(crate) fn new(alloc: Global, disk: D) -> SessionNode<D>
        ensures place { result.place ≡ Idle disk }
        ensures files { files_of result.files ≡ no_files }
    {
        SessionNode {
            place: Place::Idle(disk),
            files: GivenFiles::new(alloc),
        }
    }

    /// The disk.
    pub(crate) fn into_disk(self) -> D
        ensures { result ≡ disk_of self }
    {
        let SessionNode { place, files: _ } = self;
        place.into_disk()
    }

    /// Carries out the command. A file that wasn't given is read from `base`. The answer is the command's text, or none where
    /// the session ends.
    pub(crate) fn follow<R: Threads + Wait + Sync, F: Files>(
        self,
        rt: &R,
        alloc: Global,
        base: &F,
        command: Command,
    ) -> (SessionNode<D>, Result<Option<String>, SessionError>)
        requires { IsSoundPlace D.seen D.may_leave self.place }
        ensures sound { IsSoundPlace D.seen D.may_leave result.0.place }
        ensures followed { FollowsCommand D.Disk (F.gives base.now)
            (command_of command) result.1 self result.0 }
        ensures memory { IfErr result.1 (λ e. e ≡ SessionError.NoMemory) }
    {
        let SessionNode { place, mut files } = self;
        match command {
            Command::File(path, file) => {
                let kept = keep(alloc, &mut files, path, file);
                (SessionNode { place, files }, kept)
            }
            Command::Quit => (SessionNode { place, files }, Ok(None)),
            command => {
                let Ok(refusal) = memory_refusal(alloc) else {
                    return (SessionNode { place, files }, Err(SessionError::NoMemory));
                };
                let source = SessionFiles {
                    given: &files,
                    base,
                };
                let (place, answer) = place.answer(rt, alloc, &source, &command);
                (
                    SessionNode { place, files },
                    line_of(alloc, refusal, answer),
                )
            }
        }
    }
}

/// Keeps a file for its path.
fn keep(
    alloc: Global,
    files: &mut GivenFiles,
    path: String,
    file: GivenFile,
) -> Result<Option<String>, SessionError>
    ensures kept { OnOk result
        (files_of files.new ≡ give (files_of files.old) (string_bytes path) (given_of file)) }
    ensures reported { IfOk result (λ text. IsText text (codes "ok\n")) }
    ensures memory { IfErr result (λ e. e ≡ SessionError.NoMemory) }
{
    files.give(path, file)?;
    Ok(Some(String::from_str(alloc, "ok\n")?))
}

/// The line that reports that memory was refused to a call of the node. It is made before the call.
fn memory_refusal(alloc: Global) -> Result<String, AllocError>
    ensures { IfOk result (λ line. string_bytes line ≡ memory_line) }
{
    String::from_str(alloc, "error handler 19 NoMemory\n")
}

/// The line that reports what a command has done, or why it was refused.
fn line_of(
    alloc: Global,
    refusal: String,
    done: Result<String, Unanswered>,
) -> Result<Option<String>, SessionError>
    requires refusal { string_bytes refusal ≡ memory_line }
    ensures { IsLine done result }
{
    match done {
        Ok(line) => Ok(Some(line)),
        Err(Unanswered::Refused(why)) => text_of_refusal(alloc, refusal, &why),
        Err(Unanswered::NoMemory) => Err(SessionError::NoMemory),
    }
}

/// The line that reports why a command was refused.
fn text_of_refusal(
    alloc: Global,
    refusal: String,
    why: &HandlerError,
) -> Result<Option<String>, SessionError>
    requires refusal { string_bytes refusal ≡ memory_line }
    ensures { IsLine (Err (Refused why.now)) result }
{
    match why {
        HandlerError::NoMemory => Ok(Some(refusal)),
        why => text_of(refusal_line(alloc, why)),
    }
}

/// A line as a text of a session.
fn text_of(line: Result<String, AllocError>) -> Result<Option<String>, SessionError>
    ensures same { MatchResult line (λ s. result ≡ Ok (Some s))
        (λ _. result ≡ Err SessionError.NoMemory) }
{
    Ok(Some(line?))
}
