//! The start of an application.
ghost use Rattle.std.specs.Prelude.{◌≡◌, ◌≤◌, IfOk, length};
ghost use Rattle.proc_table.specs.Free.{free_count};
ghost use Rattle.rel_files.specs.AppInMemory.{specification_of};
ghost use Rattle.app_members.specs.InMemory.{new_members_of};
ghost use Rattle.app_members.specs.Loaded.{modules_in, tables_of};
ghost use Rattle.started_members.specs.Preparations.{to_begin};
ghost use Rattle.sup_tree.specs.Starts.{AnswersMembers, AppBegan, HasRoom, IsReady, PreparesApp, StartsApp};
ghost use Rattle.sup_tree.specs.Tree.{app_of};

use crate::spots::follow;
use crate::{StartError, StartedApp, Tree};
use app_members::{Loaded, MembersError, NewMember, members_of_app, process_count};
use proc_table::Name;
use rel_files::App;
use started_members::{Member, Preparation, begin_all, name_of, prepare_all};
use std::alloc::{AllocError, Global};
use std::sync::Wait;
use table_access::{Seating, TableAccess};

/// An application that is to start, with all memory that it needs.
#[derive(Drop)]
pub struct NewApp {
    /// Its name.
    pub name: Name,
    /// Its members before they begin, each with what it begins with.
    pub prepared: Vec<Preparation>,
    /// Room for its members once they have begun.
    pub members: Vec<Member>,
}

impl Tree {
    /// Starts the application, with the tables that are loaded: a process begins for each worker below its top, in the lowest
    /// slot in which one can. An application without a top, or whose top has no table, has no members. It waits for the slots.
    /// All memory is taken before the first process begins. Where it answers an error, nothing has started.
    pub fn start_app<'a, R: Wait, S: Seating>(
        &mut self,
        rt: &R,
        alloc: Global,
        access: &mut TableAccess<'_, S>,
        app: &'a App,
        loaded: &'a Loaded,
    ) -> Result<(), StartError<'a>>
        ensures started { StartsApp (specification_of app.now).name (specification_of app.now).top
            (tables_of (modules_in loaded.now)) self.old access.old
            result self.new access.new }
    {
        if self.is_started(app.name.as_str()) {
            return Err(StartError::AlreadyStarted);
        }
        let members = members_to_start(alloc, loaded, app, access.free_count())?;
        let new = NewApp::of(alloc, app.name.as_str(), members.as_slice())?;
        self.apps.reserve(1)?;
        let started = new.begin(rt, access);
        self.apps.push_reserved(started);
        follow(&mut self.spots, self.apps.as_slice());
        Ok(())
    }
}

/// All memory that the application needs to start, with the tables that are loaded.
pub fn prepare_app<'a>(
    alloc: Global,
    loaded: &'a Loaded,
    app: &'a App,
) -> Result<NewApp, MembersError<'a>>
    ensures { PreparesApp (specification_of app.now).name (specification_of app.now).top
        (tables_of (modules_in loaded.now)) result }
{
    let members = members_of_app(alloc, loaded, app)?;
    Ok(NewApp::of(alloc, app.name.as_str(), members.as_slice())?)
}

impl NewApp {
    // All memory that an application of these members needs to start.
    fn of(alloc: Global, app: &str, members: &[NewMember<'_>]) -> Result<NewApp, AllocError>
        ensures { IfOk result (IsReady app.now (new_members_of members.now)) }
    {
        let name = name_of(alloc, app)?;
        let prepared = prepare_all(alloc, app, members)?;
        let room = Vec::with_capacity(alloc, prepared.len())?;
        Ok(NewApp {
            name,
            prepared,
            members: room,
        })
    }

    /// The application starts: its processes begin one after another, each in the lowest slot in which one can. There are as
    /// many such slots. It waits for the slots, and takes no memory.
    pub fn begin<R: Wait, S: Seating>(self, rt: &R, access: &mut TableAccess<'_, S>) -> StartedApp
        requires slots { length (to_begin self.prepared.items) ≤ free_count access.old }
        requires room { HasRoom self }
        ensures began { AppBegan self access.old (app_of result) access.new }
    {
        let NewApp {
            name,
            prepared,
            members,
        } = self;
        let mut begun = members;
        begin_all(rt, access, prepared, &mut begun);
        StartedApp {
            name,
            members: begun,
        }
    }
}

// The members with which an application starts, with no more than so many processes among them.
fn members_to_start<'a>(
    alloc: Global,
    loaded: &'a Loaded,
    app: &'a App,
    most: usize,
) -> Result<Vec<NewMember<'a>>, StartError<'a>>
    ensures { AnswersMembers most
        (tables_of (modules_in loaded.now)) (specification_of app.now).top result }
{
    let members = members_of_app(alloc, loaded, app)?;
    if process_count(members.as_slice()) > most {
        return Err(StartError::NoSlot);
    }
    Ok(members)
}
