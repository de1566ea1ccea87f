//! A reboot to an old release.
ghost use Rattle.rel_session.specs.InMemory.{IsSoundPlace, AnswersAction};
ghost use Rattle.rel_session.specs.Transition.Action.{reboots_node};

use crate::place::{Place, answer_of};
use crate::unanswered::Unanswered;
use node_answer::blank_line;
use node_command::HandlerError;
use rel_disk::Disk;
use std::alloc::Global;
use std::sync::Wait;

impl<D: Disk> Place<D> {
    /// Makes the old release of this version the permanent one, and boots the node. The answer is that of the boot.
    pub fn reboot_old<R: Wait>(
        self,
        rt: &R,
        alloc: Global,
        vsn: &str,
    ) -> (Place<D>, Result<String, Unanswered>)
        requires { IsSoundPlace D.seen D.may_leave self }
        ensures sound { IsSoundPlace D.seen D.may_leave result.0 }
        ensures rebooted { AnswersAction D.Disk (reboots_node vsn.now) result.1 self result.0 }
    {
        let mut node = match self {
            Place::Idle(disk) => return (
                Place::Idle(disk),
                Err(Unanswered::Refused(HandlerError::Dead)),
            ),
            Place::Made(node) => node,
        };
        if node.handler.is_dead() {
            return (
                Place::Made(node),
                Err(Unanswered::Refused(HandlerError::Dead)),
            );
        }
        let line = match blank_line(alloc) {
            Ok(line) => line,
            Err(_) => return (Place::Made(node), Err(Unanswered::NoMemory)),
        };
        match node.handler.reboot_old_release(alloc, vsn) {
            Ok(()) => {
                let (place, answer) = Place::Made(node).boot(rt, alloc, line);
                (place, answer_of(answer))
            }
            Err(why) => (Place::Made(node), Err(Unanswered::Refused(why))),
        }
    }
}
