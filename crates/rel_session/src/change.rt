//! Commands that change the releases of a node that runs.
ghost use Rattle.std.specs.Prelude.{◌≡◌, false};
ghost use Rattle.node_store.specs.State.{is_dead};
ghost use Rattle.rel_session.specs.InMemory.{IsSoundNode, Answers, AnswersAction};
ghost use Rattle.session_input.specs.Commands.Command.{set_unpacked};
ghost use Rattle.rel_session.specs.Transition.{Transition, permanence, removal};
ghost use Rattle.rel_session.specs.Transition.Action.{changes_node};
ghost use Rattle.rel_session.specs.declared.place.Place.TheVariants.{Made};

use crate::booted_node::BootedNode;
use crate::place::answer_of;
use crate::unanswered::Unanswered;
use file_source::Files;
use node_answer::{append_version, blank_line};
use rel_disk::Disk;
use std::alloc::Global;

/// Takes in the release in the file of this path as unpacked. The answer reports its version.
pub(crate) fn set_unpacked<D: Disk, F: Files>(
    alloc: Global,
    node: &mut BootedNode<D>,
    files: &F,
    path: &str,
) -> Result<String, Unanswered>
    requires sound { IsSoundNode D.seen D.may_leave node.old }
    requires works { is_dead node.old.handler ≡ false }
    ensures sound { IsSoundNode D.seen D.may_leave node.new }
    ensures unpacked { Answers D.Disk
        (λ p a. Transition (F.gives files.now) p (set_unpacked path.now) a)
        result (Made node.old) (Made node.new) }
{
    let line = blank_line(alloc)?;
    match node.handler.set_unpacked(alloc, files, path) {
        Ok(vsn) => answer_of(append_version(line, vsn.as_str())),
        Err(why) => Err(Unanswered::Refused(why)),
    }
}

/// Makes the release of this version, the current one, permanent.
pub(crate) fn make_permanent<D: Disk>(
    alloc: Global,
    node: &mut BootedNode<D>,
    vsn: &str,
) -> Result<String, Unanswered>
    requires sound { IsSoundNode D.seen D.may_leave node.old }
    requires works { is_dead node.old.handler ≡ false }
    ensures sound { IsSoundNode D.seen D.may_leave node.new }
    ensures committed { AnswersAction D.Disk (changes_node (permanence vsn.now)) result
        (Made node.old) (Made node.new) }
{
    let line = String::from_str(alloc, "ok\n")?;
    match node.handler.make_permanent(alloc, vsn) {
        Ok(()) => Ok(line),
        Err(why) => Err(Unanswered::Refused(why)),
    }
}

/// Takes the release of this version out of the list.
pub(crate) fn remove<D: Disk>(
    alloc: Global,
    node: &mut BootedNode<D>,
    vsn: &str,
) -> Result<String, Unanswered>
    requires sound { IsSoundNode D.seen D.may_leave node.old }
    requires works { is_dead node.old.handler ≡ false }
    ensures sound { IsSoundNode D.seen D.may_leave node.new }
    ensures removed { AnswersAction D.Disk (changes_node (removal vsn.now)) result
        (Made node.old) (Made node.new) }
{
    let line = String::from_str(alloc, "ok\n")?;
    match node.handler.remove_release(alloc, vsn) {
        Ok(()) => Ok(line),
        Err(why) => Err(Unanswered::Refused(why)),
    }
}
