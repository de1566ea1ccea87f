//! Children of started supervisors that begin again.
ghost use Rattle.std.specs.Prelude.{◌≡◌};
ghost use Rattle.app_members.specs.Loaded.{modules_in, tables_of};
ghost use Rattle.started_members.specs.Places.{IsRange, Place};
ghost use Rattle.sup_tree.specs.Restarts.{BeginsAgain, Prepares, RestartsChild, RestartsIn, app_at};
ghost use Rattle.sup_tree.specs.Tree.{app_of};

use crate::children::place_of_only_super;
use crate::error::restart_error;
use crate::spots::follow;
use crate::{RestartError, StartedApp, Tree};
use app_members::{Loaded, NewChild, members_of_child};
use started_members::{
    Member, Preparation, Stay, begin_all, end_member, member_stays, prepare_all, process_count,
    put_in, range_of_child, take_out,
};
use std::alloc::Global;
use std::sync::Wait;
use table_access::{Seating, TableAccess};

impl Tree {
    /// Begins the child of this id of the one supervisor of this module again, with the tables that are loaded, and where it is a
    /// supervisor all below it, as [`Tree::start_app`] does (OTP: supervisor:restart_child/2). Where a process stands for it, that
    /// is given up. It answers whether nothing was done: the child is up, or its process began as a temporary one and wasn't given
    /// up, or there is no such child. It waits for the slots, and without end for one that the handler itself holds. Where it
    /// answers an error, nothing was done; but before NoSlot the process that stood for the child was given up.
    pub fn restart_child<R: Wait, S: Seating>(
        &mut self,
        rt: &R,
        alloc: Global,
        access: &mut TableAccess<'_, S>,
        loaded: &Loaded,
        module: &str,
        id: &str,
    ) -> Result<bool, RestartError>
        ensures restarted { RestartsChild «module».now id.now (tables_of (modules_in loaded.now))
            self.old access.old result self.new access.new }
    {
        let Some(place) = place_of_only_super(self.apps.as_slice(), module) else {
            return Err(RestartError::NoSuper);
        };
        let answer = restart(rt, alloc, access, loaded, &mut self.apps[place], module, id);
        follow(&mut self.spots, self.apps.as_slice());
        answer
    }
}

// The child of this id of the first supervisor of this module in this application begins again.
fn restart<R: Wait, S: Seating>(
    rt: &R,
    alloc: Global,
    access: &mut TableAccess<'_, S>,
    loaded: &Loaded,
    app: &mut StartedApp,
    module: &str,
    id: &str,
) -> Result<bool, RestartError>
    ensures restarted { RestartsIn «module».now id.now (tables_of (modules_in loaded.now))
        (app_of app.old) access.old result (app_of app.new) access.new }
{
    let Some((start, end)) = range_of_child(app.members.as_slice(), module, id) else {
        return Ok(true);
    };
    if member_stays(rt, access, &app.members[start], Stay::UpOrTemporary) {
        return Ok(true);
    }
    begin_again(rt, alloc, access, loaded, app, start, end)?;
    Ok(false)
}

// A child that doesn't stay begins again, with all below it: what stood for it is given up, and its members are put in its place.
// It stands with those below it from start on, up to end.
fn begin_again<R: Wait, S: Seating>(
    rt: &R,
    alloc: Global,
    access: &mut TableAccess<'_, S>,
    loaded: &Loaded,
    app: &mut StartedApp,
    start: usize,
    end: usize,
) -> Result<(), RestartError>
    requires range { (p : Place) × IsRange (app_of app.old).members p start end }
    ensures begun { (p : Place) → IsRange (app_of app.old).members p start end
        → BeginsAgain (tables_of (modules_in loaded.now)) (app_of app.old).name p
        (app_at p (app_of app.old)) (app_of app.old) access.old
        result (app_of app.new) access.new }
{
    let prepared = prepare_child(alloc, loaded, app.name.as_str(), &app.members[start])?;
    let mut begun = Vec::with_capacity(alloc, prepared.len())?;
    app.members.reserve(prepared.len())?;
    end_member(rt, access, &app.members[start]);
    if process_count(prepared.as_slice()) > access.free_count() {
        return Err(RestartError::NoSlot);
    }
    begin_all(rt, access, prepared, &mut begun);
    take_out(&mut app.members, start, end);
    put_in(&mut app.members, start, begun);
    Ok(())
}

// All memory that the child needs, and those below it.
fn prepare_child(
    alloc: Global,
    loaded: &Loaded,
    app: &str,
    child: &Member,
) -> Result<Vec<Preparation>, RestartError>
    ensures { Prepares (tables_of (modules_in loaded.now)) app.now child.now result }
{
    let child = NewChild {
        depth: child.depth,
        id: child.id.as_str(),
        module: child.module.as_str(),
        restart: child.restart,
        kind: child.kind,
    };
    match members_of_child(alloc, loaded, child) {
        Ok(new) => Ok(prepare_all(alloc, app, new.as_slice())?),
        Err(error) => Err(restart_error(alloc, error)),
    }
}
