//! Supervisors whose children change.
ghost use Rattle.std.specs.Prelude.{◌≡◌, IfOk, OnErr, OnOk, map};
ghost use Rattle.started_members.specs.InMemory.{child_of};
ghost use Rattle.sup_tree.specs.Changes.{app_changed, apps_changed};
ghost use Rattle.sup_tree.specs.Tree.{app_of};

use crate::spots::{follow, spots_of};
use crate::{StartedApp, Tree};
use started_members::{Child, Super, changed_members, copy_members};
use std::alloc::{AllocError, Global};

impl Tree {
    /// An equal tree: of the same applications, with the same processes. It knows where these stand (`users_by_slot`).
    pub fn copy(&self, alloc: Global) -> Result<Tree, AllocError>
        ensures { IfOk result (λ copy. copy ≡ self.now) }
    {
        let mut apps = Vec::with_capacity(alloc, self.apps.len())?;
        for app in self.apps.as_slice() {
            apps.push(copy_app(alloc, app)?)?;
        }
        let spots = spots_of(alloc, apps.as_slice())?;
        Ok(Tree {
            apps,
            spots: Some(spots),
        })
    }

    /// Each started supervisor of this module gets the children of the table, in order, and after them those of its children
    /// that the table doesn't name. A child that the table names is known by its id, and what stands for it stays. Nothing
    /// changes where no memory was left.
    pub fn change_children(
        &mut self,
        alloc: Global,
        module: &str,
        table: &Super,
    ) -> Result<(), AllocError>
        ensures changed { OnOk result (self.new
            ≡ apps_changed «module».now table.now.children self.old) }
        ensures kept { OnErr result (self.new ≡ self.old) }
    {
        let mut apps = Vec::with_capacity(alloc, self.apps.len())?;
        for app in self.apps.as_slice() {
            apps.push(changed_app(alloc, module, table.children(), app)?)?;
        }
        self.apps = apps;
        follow(&mut self.spots, self.apps.as_slice());
        Ok(())
    }
}

fn copy_app(alloc: Global, app: &StartedApp) -> Result<StartedApp, AllocError>
    ensures { IfOk result (λ copy. app_of copy ≡ app_of app.now) }
{
    Ok(StartedApp {
        name: app.name.copy(alloc)?,
        members: copy_members(alloc, app.members.as_slice())?,
    })
}

fn changed_app(
    alloc: Global,
    module: &str,
    children: &[Child],
    app: &StartedApp,
) -> Result<StartedApp, AllocError>
    ensures { IfOk result (λ changed. app_of changed
        ≡ app_changed «module».now (map child_of children.now) (app_of app.now)) }
{
    let members = copy_members(alloc, app.members.as_slice())?;
    Ok(StartedApp {
        name: app.name.copy(alloc)?,
        members: changed_members(alloc, module, children, members)?,
    })
}
