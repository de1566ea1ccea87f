//! The end of an application.
ghost use Rattle.std.specs.Prelude.{◌≡◌};
ghost use Rattle.sup_tree.specs.Stops.{StopsApp, IsPlaceOf};

use crate::spots::follow;
use crate::{NoSuchApp, StartedApp, Tree};
use started_members::end_all;
use std::sync::Wait;
use table_access::{Seating, TableAccess};

impl Tree {
    /// Stops the application: its processes are given up, the last first, but for those that were given up before. It waits
    /// for their slots, and without end for one that the handler itself holds. It takes no memory.
    pub fn stop_app<R: Wait, S: Seating>(
        &mut self,
        rt: &R,
        access: &mut TableAccess<'_, S>,
        app: &str,
    ) -> Result<(), NoSuchApp>
        ensures stopped { StopsApp app.now self.old access.old result self.new access.new }
    {
        let Some(place) = place_of(self.apps.as_slice(), app) else {
            return Err(NoSuchApp);
        };
        let StartedApp {
            name: _name,
            members,
        } = self.apps.remove(place);
        follow(&mut self.spots, self.apps.as_slice());
        end_all(rt, access, members.as_slice());
        Ok(())
    }
}

// Where the application of this name stands.
fn place_of(apps: &[StartedApp], name: &str) -> Option<usize>
    ensures { IsPlaceOf name.now apps.now result }
{
    for (place, app) in apps.iter().enumerate() {
        if app.name.as_str() == name {
            return Some(place);
        }
    }
    None
}
