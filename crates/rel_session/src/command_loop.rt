//! A session of a node.
//!
//! The commands come from `session_input`. A failed read and a failed write are reported exactly where one was, and an input
//! that is too long only where it is. At most 16,777,216 bytes of the input are taken. Each answer is written once its command
//! is done (`allowed`), and before more is read: where a read fails, each command that is whole in the bytes that were taken by
//! then has its answer. Where memory is refused to a call of the node, that is its answer, and the session goes on. Where it is
//! refused to the text of an answer, the session ends without that, and what the command has committed is on the disk.
ghost use Rattle.std.specs.Prelude.{◌≡◌, ◌≤◌, IsErrOf};
ghost use Rattle.counted_io.specs.Failures.{Reports};
ghost use Rattle.rel_session.specs.Session.{AllowsTrueAnswersOnly, IsSession, ending_of};
ghost use Rattle.rel_session.specs.Files.{no_files};
ghost use Rattle.session_input.specs.Input.{IsFresh, left_in, taken, failed_reads, most_bytes};

use crate::answer_writer::AnswerWriter;
use crate::node::SessionNode;
use file_source::Files;
use rel_disk::Disk;
use session_input::{Input, SessionError};
use std::alloc::Global;
use std::io::Read;
use std::sync::Wait;
use std::thread::Threads;

/// Follows the commands of an input on a disk, and writes each answer once its command is done. A file that isn't given in the
/// session is read from `files`. The disk comes back with the result.
pub fn session<H: Threads + Wait + Sync, D: Disk, F: Files, R: Read + Drop, A: AnswerWriter<D>>(
    rt: &H,
    alloc: Global,
    disk: D,
    files: &F,
    input: &mut Input<R>,
    output: &mut A,
) -> (D, Result<(), SessionError>)
    requires fresh { IsFresh input.old }

    // Leave is asked for no more than the answers of a session that led to the disk as it stands when they are written: of the
    // commands that are done, and of none that is to come.
    requires allowed { AllowsTrueAnswersOnly D.Disk (F.gives files.now)
        (left_in R.remaining input.old)
        disk (A.written output.old) (A.allows output.old) }

    // The session is a run of transitions over the commands of its input, from the disk that it took to the one that it hands
    // back, and what it wrote are the answers. By its result it came to the end of its input, to `quit` or to the end of what
    // may be taken; or a read failed, and each command in the bytes that were taken by then is answered; or an answer was
    // written in part; or memory was refused, to the line of a command, to a file or to the text of an answer.
    ensures session { IsSession D.Disk (F.gives files.now) no_files (ending_of result.1)
        (taken input.new) (left_in R.remaining input.old) disk result.0
        (A.written output.old) (A.written output.new) }

    // A failed read and a failed write are reported exactly where one was, and Limit only at the limit.
    ensures read { Reports SessionError.Read result.1
        (failed_reads input.old) (failed_reads input.new) }
    ensures write { Reports SessionError.Write result.1
        (A.failed output.old) (A.failed output.new) }
    ensures limit { IsErrOf result.1 SessionError.Limit → taken input.new ≡ most_bytes }

    // No byte past the limit is taken.
    ensures bounded { taken input.new ≤ most_bytes }
{
    let mut node = SessionNode::new(alloc, disk);
    loop {
        let command = match input.next_command(alloc) {
            Ok(Some(command)) => command,
            Ok(None) => return (node.into_disk(), Ok(())),
            Err(error) => return (node.into_disk(), Err(error)),
        };
        let (next, text) = node.follow(rt, alloc, files, command);
        node = next;
        match text {
            Ok(Some(text)) => {
                if let Err(error) = output.write_answer(&node, text.as_str()) {
                    return (node.into_disk(), Err(SessionError::from(error)));
                }
            }
            Ok(None) => return (node.into_disk(), Ok(())),
            Err(error) => return (node.into_disk(), Err(error)),
        }
    }
}
