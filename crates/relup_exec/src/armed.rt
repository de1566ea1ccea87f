//! A script that has come to its point of no return.
ghost use Rattle.std.specs.Prelude.{◌≡◌, ℕ};
ghost use Rattle.held_processes.specs.Course.{Courses};
ghost use Rattle.held_processes.specs.Following.{AllFollow, AreLeft, AreUntouched};
ghost use Rattle.loaded_modules.specs.Loaded.{listed_in};
ghost use Rattle.proc_table.specs.Views.{seen};
ghost use Rattle.proc_table.specs.declared.view.View.{View};
ghost use Rattle.relup_exec.specs.InMemory.{armed_of};
ghost use Rattle.relup_exec.specs.Outcome.{CanGoBack};
ghost use Rattle.relup_exec.specs.Sites.{IsSeated, LendsSame, view_in};

use crate::{Progress, Site};
use proc_table::{HandlerSeat, ProcTable};
use relup_instruction::Instr;
use std::marker::Brand;
use table_access::{Lent, Seating, TableAccess};

/// A script that has come to its point of no return: all before the point was done, and nothing of it stands in a history yet.
/// It ends in `roll_back` or `run_after`.
pub struct Armed<'s> {
    pub(crate) script: &'s [Instr],
    // How many instructions stand before the point.
    pub(crate) place: usize,
    pub(crate) progress: Progress,
    // Room for what is reported of each instruction after the point.
    pub(crate) reported: Vec<bool>,
}

impl Armed<'_> {
    /// Each process that is held goes back as it was. It takes no memory, and waits for nobody.
    pub fn roll_back(self, site: &mut Site<'_>)
        requires seated { IsSeated site.old }
        requires held { (first : View) × CanGoBack first (armed_of self).held (view_in site.old) }
        ensures same { LendsSame site.old site.new }
        ensures seated { IsSeated site.new }
        ensures kept { (site.new.tree.now ≡ site.old.tree.now)
            × (listed_in site.new.loaded.now ≡ listed_in site.old.loaded.now) }
        ensures untouched { (first : View)
            → CanGoBack first (armed_of self.entry).held (view_in site.old)
            → AreUntouched first (view_in site.new) }
    {
        let Armed {
            script: _script,
            place: _place,
            progress,
            reported: _reported,
        } = self;
        roll_back_with(site.table, &mut *site.seat, progress);
    }
}

// Each process that is held goes back as it was, by this seat at its table.
pub(crate) fn roll_back_with(table: &ProcTable, seat: &mut HandlerSeat, progress: Progress)
    requires table { seat.old.table ≡ table.now }
    requires follow { (first : View) × (courses : Courses)
        × AllFollow first courses progress.held seat.old.view }
    ensures table { seat.new.table ≡ seat.old.table }
    ensures left { (first : View) (courses : Courses)
        → AllFollow first courses progress.held seat.old.view
        → AreLeft first courses seat.new.view }
    ensures seen { (p : ℕ) → seen seat.new.view p ≡ seen seat.old.view p }
    ensures found { seat.new.view.found ≡ seat.old.view.found }
{
    let lent = Lent { table, seat };
    let _ = roll_back_at::<Brand>(lent, progress);
}

// Gives the processes back by an access to the table that is lent, and then the seat.
fn roll_back_at<'t, S: Seating>(lent: Lent<'t>, progress: Progress) -> &'t mut HandlerSeat
    requires name { lent.seat.ghost_name ≡ S.name }
    requires table { (lent.seat.now.table ≡ S.table) × (lent.table.now ≡ S.table) }
    requires follow { (first : View) × (courses : Courses)
        × AllFollow first courses progress.held lent.seat.now.view }
    ensures name { result.ghost_name ≡ S.name }
    ensures table { result.now.table ≡ S.table }
    ensures left { (first : View) (courses : Courses)
        → AllFollow first courses progress.held lent.entry.seat.now.view
        → AreLeft first courses result.now.view }
    ensures seen { (p : ℕ) → seen result.now.view p ≡ seen lent.entry.seat.now.view p }
    ensures found { result.now.view.found ≡ lent.entry.seat.now.view.found }
{
    let mut access: TableAccess<'t, S> = TableAccess::new(lent);
    progress.roll_back(&mut access);
    access.into_seat()
}
