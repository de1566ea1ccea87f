//! Applications that start and stop while processes are held.
ghost use Rattle.std.specs.Prelude.{◌≡◌, ◌<◌, length, slice_index_or};
ghost use Rattle.rel_files.specs.AppInMemory.{specification_of};
ghost use Rattle.held_processes.specs.Applications.{StartsIn, held_ended, scene_at, state_ended, with_stopped};
ghost use Rattle.held_processes.specs.Following.{AllFollow, AreLonger, Followed};
ghost use Rattle.sup_tree.specs.Loaded.{modules_in, tables_of};
ghost use Rattle.started_members.specs.Members.{pids_of, process_in, processes_among};
ghost use Rattle.started_members.specs.declared.member.Member.{Member as Part};

use crate::{AppName, HeldProcesses};
use rel_files::App;
use std::alloc::Global;
use std::sync::Wait;
use sup_tree::{Loaded, Member, StartError, Tree};
use table_access::{Seating, TableAccess};

impl HeldProcesses {
    /// Starts the application, beside the processes that are held (OTP: application:start/1). Where it answers an error, nothing
    /// was done. It waits for the slots.
    pub fn start_app<'a, R: Wait, S: Seating>(
        &self,
        rt: &R,
        alloc: Global,
        access: &mut TableAccess<'_, S>,
        tree: &mut Tree,
        app: &'a App,
        loaded: &'a Loaded,
    ) -> Result<(), StartError<'a>>
        ghost followed: { Followed }
        requires follow { AllFollow followed.first followed.courses self.now access.old }
        ensures started { StartsIn followed.first (specification_of app.now).name
            (specification_of app.now).top (tables_of (modules_in loaded.now))
            (scene_at followed tree.old) result tree.new self.now access.new }
        ensures longer { AreLonger access.old access.new }
    {
        access.knows();
        tree.start_app(rt, alloc, access, app, loaded)
    }

    /// Stops the application, if it is started: those of its processes that are held are given up and let go, then the others
    /// are given up, the last first (OTP: application:stop/1). It waits for the slots, and takes no memory.
    pub fn stop_app<R: Wait, S: Seating>(
        &mut self,
        rt: &R,
        access: &mut TableAccess<'_, S>,
        tree: &mut Tree,
        app: &AppName<'_>,
    )
        ghost followed: { Followed }
        requires follow { AllFollow followed.first followed.courses self.old access.old }
        ensures apps { tree.new
            ≡ (with_stopped app.now.name.now (scene_at followed tree.old)).apps }
        ensures stopped { AllFollow followed.first
            (with_stopped app.now.name.now (scene_at followed tree.old)).courses
            self.new access.new }
        ensures longer { AreLonger access.old access.new }
    {
        self.give_up_all(access, tree.members(app.name));
        let _ = tree.stop_app(rt, access, app.name);
    }

    /// Gives up the processes of these members that are held, and lets them go.
    pub(crate) fn give_up_all<S: Seating>(
        &mut self,
        access: &mut TableAccess<'_, S>,
        members: &[Member],
    )
        ghost followed: { Followed }
        requires follow { AllFollow followed.first followed.courses self.old access.old }
        ensures done { AllFollow followed.first (held_ended
            (pids_of (processes_among members.now)) followed.courses) self.new access.new }
        ensures longer { AreLonger access.old access.new }
    {
        for place in 0..members.len() {
            self.give_up_one(access, members, place);
        }
    }

    // The process of the member at this place among these is given up and let go, if it is held.
    fn give_up_one<S: Seating>(
        &mut self,
        access: &mut TableAccess<'_, S>,
        members: &[Member],
        place: usize,
    )
        ghost followed: { Followed }
        requires inside { place < length members.now }
        requires follow { AllFollow followed.first followed.courses self.old access.old }
        ensures done { (d : Part) → AllFollow followed.first
            (state_ended (process_in (slice_index_or members.now place d)) followed.courses)
            self.new access.new }
        ensures longer { AreLonger access.old access.new }
    {
        if let Some(process) = members[place].process() {
            self.give_up_slot(access, process.pid.slot);
        }
    }
}
