//! Children of started supervisors.
ghost use Rattle.std.specs.Prelude.{◌≡◌, [], map};
ghost use Rattle.sup_tree.specs.Children.{DeletesChild, IsPlaceOfOnlySuper, IsPlaceOfSuper, TerminatesChild, child_members, has_one_supervisor};
ghost use Rattle.sup_tree.specs.Tree.{app_of};

use crate::spots::follow;
use crate::{NoSuper, StartedApp, Tree};
use started_members::{Member, delete, supervises_in, supervisor_count, terminate, with_below};
use std::sync::Wait;
use table_access::{Seating, TableAccess};

impl Tree {
    /// Whether exactly one supervisor of this module is started.
    pub fn has_one_supervisor(&self, module: &str) -> bool
        ensures { result ≡ has_one_supervisor «module».now self.now }
    {
        has_one_super(self.apps.as_slice(), module)
    }

    /// The child of this id of the supervisor of this module, and those below it, in the order of the walk; none where there is
    /// no such child. Of several supervisors of the module it is the first.
    pub fn child_members(&self, module: &str, id: &str) -> &[Member]
        ensures { result.now ≡ child_members «module».now id.now self.now }
    {
        match place_of_super(self.apps.as_slice(), module) {
            Some(place) => with_below(self.apps[place].members.as_slice(), module, id),
            None => &[],
        }
    }

    /// Ends the child of this id of the one supervisor of this module (OTP: supervisor:terminate_child/2): its process is given up,
    /// and those of all below it, the last first, but for those that were given up before. The specification of the child stays,
    /// unless it is temporary. Nothing is done where the supervisor has no such child. It waits for the slots, and without end
    /// for one that the handler itself holds. It takes no memory.
    pub fn terminate_child<R: Wait, S: Seating>(
        &mut self,
        rt: &R,
        access: &mut TableAccess<'_, S>,
        module: &str,
        id: &str,
    ) -> Result<(), NoSuper>
        ensures terminated { TerminatesChild «module».now id.now
            self.old access.old result self.new access.new }
    {
        let Some(place) = place_of_only_super(self.apps.as_slice(), module) else {
            return Err(NoSuper);
        };
        terminate(rt, access, &mut self.apps[place].members, module, id);
        follow(&mut self.spots, self.apps.as_slice());
        Ok(())
    }

    /// Takes away the child of this id of the one supervisor of this module, with its specification, unless it is up (OTP:
    /// supervisor:delete_child/2). A child is up where its process is, and a supervisor always. Where its process is down or
    /// stopped, it is given up. It answers whether nothing was done: the child is up, or there is none. It waits for the slot, and
    /// without end for one that the handler itself holds. It takes no memory.
    pub fn delete_child<R: Wait, S: Seating>(
        &mut self,
        rt: &R,
        access: &mut TableAccess<'_, S>,
        module: &str,
        id: &str,
    ) -> Result<bool, NoSuper>
        ensures deleted { DeletesChild «module».now id.now
            self.old access.old result self.new access.new }
    {
        let Some(place) = place_of_only_super(self.apps.as_slice(), module) else {
            return Err(NoSuper);
        };
        let stays = delete(rt, access, &mut self.apps[place].members, module, id);
        follow(&mut self.spots, self.apps.as_slice());
        Ok(stays)
    }
}

// Whether exactly one supervisor of this module is started.
fn has_one_super(apps: &[StartedApp], module: &str) -> bool
    ensures { result ≡ has_one_supervisor «module».now (map app_of apps.now) }
{
    let mut count = 0;
    for app in apps {
        let more = supervisor_count(app.members.as_slice(), module);
        if more > 1 - count {
            return false;
        }
        count += more;
    }
    count == 1
}

// Where the application with the one supervisor of this module stands; nothing unless exactly one is started.
pub(crate) fn place_of_only_super(apps: &[StartedApp], module: &str) -> Option<usize>
    ensures { IsPlaceOfOnlySuper «module».now apps.now result }
{
    if has_one_super(apps, module) {
        place_of_super(apps, module)
    } else {
        None
    }
}

// Where the first application with a supervisor of this module stands.
fn place_of_super(apps: &[StartedApp], module: &str) -> Option<usize>
    ensures { IsPlaceOfSuper «module».now apps.now result }
{
    for (place, app) in apps.iter().enumerate() {
        if supervises_in(app.members.as_slice(), module) {
            return Some(place);
        }
    }
    None
}
