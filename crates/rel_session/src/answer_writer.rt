//! Where the answers of a session are written.
ghost use Rattle.std.specs.Prelude.{◌≡◌, ℕ, List, Option, OnOk, OnErr};
ghost use Rattle.std.specs.Io.KnownBytes.{Appends};
ghost use Rattle.counted_io.specs.Counted.{held_by, failed_writes};
ghost use Rattle.counted_io.specs.Failures.{Counts};
ghost use Rattle.counted_io.specs.Prefixes.{AppendsPrefix};

use crate::node::SessionNode;
use counted_io::{CountedWriter, WriteFailed};
use rel_disk::Disk;
use std::io::Write;

/// Where the answers of a session are written, each with the node that has given it.
///
/// What may be written is a matter of where the node's disk stands by then (`allows`). A session has no other way to write, and
/// is proved for every writer that allows the answers of the commands that are done. So it writes no answer before the disk
/// stands where its command leads.
pub trait AnswerWriter<D: Disk> {
    ghost use Rattle.rel_session.specs.InMemory.{disk_of};
    ghost use Rattle.rel_session.specs.Output.{MayAdd};

    /// What was written, where it is known.
    ghost written: { Self → Option (List ℕ) };

    /// How many writes have failed; the count stays once it is 2 ^ 64 - 1.
    ghost failed: { Self → ℕ };

    /// By the time that the node's disk is this one, this may have been written.
    ghost allows: { Self → D → Option (List ℕ) → Type 0 };

    /// Writes the answer of a command that the node has done, and passes it on. After an `Err` a prefix of it was written.
    fn write_answer(&mut self, node: &SessionNode<D>, answer: &str) -> Result<(), WriteFailed>
        requires { MayAdd (allows self.old (disk_of node.now)) (written self.old) answer.now }
        ensures written { OnOk result (Appends (written self.old) (written self.new) answer.now) }
        ensures prefix { OnErr result
            (AppendsPrefix (written self.old) (written self.new) answer.now) }
        ensures counted { Counts result (failed self.old) (failed self.new) }
        ensures kept { (disk : D) (text : Option (List ℕ))
            → allows self.old disk text → allows self.new disk text };
}

/// A writer that takes each answer.
impl<D: Disk, W: Write> AnswerWriter<D> for CountedWriter<W> {
    ghost written = { λ writer. held_by W.contents writer };

    ghost failed = { λ writer. failed_writes writer };

    ghost allows = { λ writer disk text. Unit {0} };

    fn write_answer(&mut self, _node: &SessionNode<D>, answer: &str) -> Result<(), WriteFailed> {
        self.write(answer.as_bytes())
    }
}
