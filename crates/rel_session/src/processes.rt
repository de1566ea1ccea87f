//! Commands on the processes of a node that runs.
//!
//! The processes are those of `node_processes`: a boot starts them, a command lists, peeks at or calls them, and an
//! installation upgrades them by its script; other changes of the releases leave them as they are.
ghost use Rattle.std.specs.Prelude.{◌≡◌, false};
ghost use Rattle.node_processes.specs.Answers.{processes_line, modules_line, peek_line};
ghost use Rattle.node_store.specs.State.{is_dead};
ghost use Rattle.rel_session.specs.InMemory.{IsSoundNode, Answers, AnswersAsked};
ghost use Rattle.rel_session.specs.Transition.{NodeReplies};
ghost use Rattle.rel_session.specs.Transition.Action.{calls};
ghost use Rattle.node_processes.specs.Calls.Calls.{once, often};
ghost use Rattle.rel_session.specs.declared.place.Place.TheVariants.{Made};

use crate::booted_node::BootedNode;
use crate::place::answer_of;
use crate::unanswered::Unanswered;
use rel_disk::Disk;
use std::alloc::Global;
use std::sync::Wait;
use std::thread::Threads;

/// Lists the processes.
pub(crate) fn list_processes<D: Disk, R: Wait>(
    rt: &R,
    alloc: Global,
    node: &mut BootedNode<D>,
) -> Result<String, Unanswered>
    requires sound { IsSoundNode D.seen D.may_leave node.old }
    requires works { is_dead node.old.handler ≡ false }
    ensures sound { IsSoundNode D.seen D.may_leave node.new }
    ensures listed { AnswersAsked D.Disk processes_line result (Made node.old) (Made node.new) }
{
    answer_of(node.processes.list(rt, alloc))
}

/// Lists the modules that are loaded.
pub(crate) fn list_modules<D: Disk>(
    alloc: Global,
    node: &mut BootedNode<D>,
) -> Result<String, Unanswered>
    requires sound { IsSoundNode D.seen D.may_leave node.old }
    requires works { is_dead node.old.handler ≡ false }
    ensures sound { IsSoundNode D.seen D.may_leave node.new }
    ensures listed { AnswersAsked D.Disk modules_line result (Made node.old) (Made node.new) }
{
    answer_of(node.processes.list_modules(alloc))
}

/// Reports the state of a process, and the version of its module.
pub(crate) fn peek<D: Disk, R: Wait>(
    rt: &R,
    alloc: Global,
    node: &mut BootedNode<D>,
    app: &str,
    id: &str,
) -> Result<String, Unanswered>
    requires sound { IsSoundNode D.seen D.may_leave node.old }
    requires works { is_dead node.old.handler ≡ false }
    ensures sound { IsSoundNode D.seen D.may_leave node.new }
    ensures reported { AnswersAsked D.Disk (peek_line app.now id.now) result
        (Made node.old) (Made node.new) }
{
    answer_of(node.processes.peek(rt, alloc, app, id))
}

/// Calls a process, and reports what comes of it.
pub(crate) fn call<D: Disk, R: Wait>(
    rt: &R,
    alloc: Global,
    node: &mut BootedNode<D>,
    app: &str,
    id: &str,
    input: u32,
) -> Result<String, Unanswered>
    requires sound { IsSoundNode D.seen D.may_leave node.old }
    requires works { is_dead node.old.handler ≡ false }
    ensures sound { IsSoundNode D.seen D.may_leave node.new }
    ensures called { Answers D.Disk (λ p a. NodeReplies p (calls (once app.now id.now input)) a)
        result (Made node.old) (Made node.new) }
{
    answer_of(node.processes.call(rt, alloc, app, id, input))
}

/// Calls a process so often from threads, and reports how often each outcome came.
pub(crate) fn flood<D: Disk, R: Threads + Wait + Sync>(
    rt: &R,
    alloc: Global,
    node: &mut BootedNode<D>,
    app: &str,
    id: &str,
    input: u32,
    times: u32,
) -> Result<String, Unanswered>
    requires sound { IsSoundNode D.seen D.may_leave node.old }
    requires works { is_dead node.old.handler ≡ false }
    ensures sound { IsSoundNode D.seen D.may_leave node.new }
    ensures flooded { Answers D.Disk
        (λ p a. NodeReplies p (calls (often app.now id.now input times)) a)
        result (Made node.old) (Made node.new) }
{
    answer_of(node.processes.flood(rt, alloc, app, id, input, times))
}
