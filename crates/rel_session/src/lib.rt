//! A session of a node: the commands of an input are followed on a disk, and their answers are written.
//!
//! The contract of [`session`] is one statement, `IsSession`: a run of transitions over the commands of its input. A session
//! writes by an [`AnswerWriter`] alone, which it hands each answer with the node that has given it. It is proved for each
//! writer that allows no more than the answers of the commands that are done (`allowed`). So no answer is written before the
//! disk stands where its command leads, and each is written before more of the input is read.
//! Six files of specs define `IsSession`, over Device, Files and Output, in this order. Node: where a disk stands, and what
//! a reply is. Booting, Installation: what these two reply. Transition: the replies to each command, from each place. Run:
//! how replies lead a disk from place to place, and what a crash leaves at each moment: the list of a prefix of the events
//! so far that holds every acknowledged one. Session: what is written, and how a session ends. The laws of `session_laws`
//! say what follows for whole runs. docs/ARCHITECTURE.md says what a further command takes.
//! Out of memory is an answer, and the session goes on: docs/RULES.md says what such an answer has changed. The session ends
//! for want of memory only where it has none for a line, for a file that is given, or for the text of an answer.
//! What is said of a session holds where it returns. Only tested: that it does, though it may wait for slots of its
//! processes, and that it goes on where memory is there. Trusted: the toolchain, with what the crates below trust.
#![tactic(auto)]

mod answer;
mod answer_writer;
mod booted_node;
mod change;
mod check;
mod command_loop;
mod given_files;
mod install;
mod node;
mod place;
mod processes;
mod reboot;
mod start;
mod unanswered;

pub use answer_writer::AnswerWriter;
pub use command_loop::session;
pub use node::SessionNode;
pub use node_start::{Node, boot};
pub use session_input::{Input, SessionError};
