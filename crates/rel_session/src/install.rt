//! Installs a release.
//!
//! After an installation whose script ends with a restart the node boots at once, and the answer has two lines: its own, and that
//! of the boot.
ghost use Rattle.std.specs.Prelude.{◌≡◌, string_bytes, IfErr, IfOk};
ghost use Rattle.erl_term.specs.Value.{value_of};
ghost use Rattle.node_answer.specs.Lines.{installed_text};
ghost use Rattle.node_store.specs.Commits.{Commits};
ghost use Rattle.rel_handler.specs.Installing.{install_event, install_size, InstallRefused};
ghost use Rattle.node_store.specs.State.{list_in};
ghost use Rattle.rel_session.specs.InMemory.{state_in, AnswersAction, HasInstalled, IsSoundNode, IsSoundPlace, ReportsInstallation};
ghost use Rattle.rel_session.specs.Transition.Action.{installs};

use crate::booted_node::BootedNode;
use crate::place::{Place, answer_of};
use crate::unanswered::Unanswered;
use node_answer::{MOST_LINE, broken_line, installed_line, refused_line};
use node_command::HandlerError;
use node_upgrade::{InstallError, Installed};
use rel_disk::Disk;
use std::alloc::{AllocError, Global};
use std::sync::Wait;

impl<D: Disk> Place<D> {
    /// Installs the release of this version by its script. The answer reports the version and the description of the script's
    /// entry, and the stale modules. After a script that ends with a restart the node boots, and the answer of the boot follows;
    /// where memory is refused to the first line, it boots all the same.
    pub fn install<R: Wait>(
        self,
        rt: &R,
        alloc: Global,
        vsn: &str,
    ) -> (Place<D>, Result<String, Unanswered>)
        requires { IsSoundPlace D.seen D.may_leave self }
        ensures sound { IsSoundPlace D.seen D.may_leave result.0 }
        ensures installed { AnswersAction D.Disk (installs vsn.now) result.1 self result.0 }
    {
        let mut node = match self {
            Place::Idle(disk) => return (
                Place::Idle(disk),
                Err(Unanswered::Refused(HandlerError::Dead)),
            ),
            Place::Made(node) => node,
        };
        if node.handler.is_dead() {
            return (
                Place::Made(node),
                Err(Unanswered::Refused(HandlerError::Dead)),
            );
        }
        let done = install_release(rt, alloc, &mut node, vsn);
        let restarts = done.is_ok() && node.handler.is_dead();
        let answer = installation_answer(alloc, done);
        if !restarts {
            return (Place::Made(node), answer);
        }
        match answer {
            Ok(line) => {
                let (place, answer) = Place::Made(node).boot(rt, alloc, line);
                (place, answer_of(answer))
            }
            Err(why) => {
                let (place, _unread) = Place::Made(node).boot(rt, alloc, String::new(alloc));
                (place, Err(why))
            }
        }
    }
}

/// Installs the release of this version on the node.
fn install_release<D: Disk, R: Wait>(
    rt: &R,
    alloc: Global,
    node: &mut BootedNode<D>,
    vsn: &str,
) -> Result<Installed, InstallError>
    requires sound { IsSoundNode D.seen D.may_leave node.old }
    ensures sound { IsSoundNode D.seen D.may_leave node.new }
    ensures commits { Commits D.Disk (install_event vsn.now (list_in node.old.handler))
        (install_size vsn.now (list_in node.old.handler)) node.old.handler node.new.handler }
    ensures installed { IfOk result (HasInstalled D.Disk vsn.now node.old node.new) }
    ensures refused { IfErr result (InstallRefused D.failures vsn.now node.old.handler
        node.new.handler (state_in node.old) (state_in node.new)) }
{
    node.handler.install_release(
        rt,
        alloc,
        &node.processes.table,
        &mut node.processes.seat,
        &mut node.processes.tree,
        &mut node.processes.loaded,
        vsn,
    )
}

/// The line of a release that was installed, with room for that of a boot after it.
fn line_before_boot(alloc: Global, installed: &Installed) -> Result<String, AllocError>
    ensures { IfOk result (λ text. string_bytes text
        ≡ installed_text (string_bytes installed.now.other)
        (value_of installed.now.descr) installed.now.stale.items) }
{
    let mut line = installed_line(alloc, installed)?;
    line.reserve(MOST_LINE)?;
    Ok(line)
}

/// What an installation answers.
fn installation_answer(
    alloc: Global,
    done: Result<Installed, InstallError>,
) -> Result<String, Unanswered>
    ensures { ReportsInstallation done result }
{
    match done {
        Ok(installed) => answer_of(line_before_boot(alloc, &installed)),
        Err(InstallError::Command(why)) => Err(Unanswered::Refused(why)),
        Err(InstallError::Refused(failure)) => answer_of(refused_line(alloc, &failure)),
        Err(InstallError::MustReboot(failure)) => answer_of(broken_line(alloc, &failure)),
    }
}
