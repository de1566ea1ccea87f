//! Whether a release can be installed.
ghost use Rattle.std.specs.Prelude.{◌≡◌, false, string_bytes, IfOk};
ghost use Rattle.node_store.specs.State.{is_dead, list_in};
ghost use Rattle.rel_session.specs.InMemory.{IsSoundNode, AnswersReported};
ghost use Rattle.node_answer.specs.Lines.{check_line};
ghost use Rattle.rel_session.specs.declared.place.Place.TheVariants.{Made};

use crate::booted_node::BootedNode;
use crate::place::answer_of;
use crate::unanswered::Unanswered;
use node_answer::{found_line, refusal_line};
use rel_disk::Disk;
use std::alloc::{AllocError, Global};

/// What an installation of this version would answer of its script, or why there would be none.
pub(crate) fn check_install<D: Disk>(
    alloc: Global,
    node: &mut BootedNode<D>,
    vsn: &str,
) -> Result<String, Unanswered>
    requires sound { IsSoundNode D.seen D.may_leave node.old }
    requires works { is_dead node.old.handler ≡ false }
    ensures sound { IsSoundNode D.seen D.may_leave node.new }
    ensures reported { AnswersReported D.Disk (λ list ps. check_line vsn.now list) result
        (Made node.old) (Made node.new) }
{
    answer_of(check_line(alloc, node, vsn))
}

/// The line that reports it.
fn check_line<D: Disk>(alloc: Global, node: &BootedNode<D>, vsn: &str) -> Result<String, AllocError>
    requires { is_dead node.now.handler ≡ false }
    ensures { IfOk result (λ text.
        string_bytes text ≡ check_line vsn.now (list_in node.now.handler)) }
{
    match node.handler.check_install(vsn) {
        Ok(found) => found_line(alloc, &found),
        Err(why) => refusal_line(alloc, &why),
    }
}
