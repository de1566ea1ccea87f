//! What a node starts.
ghost use Rattle.std.specs.Prelude.{◌≡◌, false};
ghost use Rattle.node_store.specs.State.{is_dead};
ghost use Rattle.rel_session.specs.InMemory.{IsSoundNode, AnswersAction};
ghost use Rattle.rel_session.specs.Transition.Action.{reports_start};
ghost use Rattle.rel_session.specs.declared.place.Place.TheVariants.{Made};

use crate::booted_node::BootedNode;
use crate::place::answer_of;
use crate::unanswered::Unanswered;
use node_answer::start_line;
use rel_disk::Disk;
use std::alloc::Global;

/// What the node starts, as its start record reports it.
pub(crate) fn start<D: Disk>(alloc: Global, node: &mut BootedNode<D>) -> Result<String, Unanswered>
    requires sound { IsSoundNode D.seen D.may_leave node.old }
    requires works { is_dead node.old.handler ≡ false }
    ensures sound { IsSoundNode D.seen D.may_leave node.new }
    ensures reported { AnswersAction D.Disk reports_start result
        (Made node.old) (Made node.new) }
{
    match node.handler.start(alloc) {
        Ok(start) => answer_of(start_line(alloc, &start)),
        Err(why) => Err(Unanswered::Refused(why)),
    }
}
