//! An application that starts in a table.
ghost use Rattle.std.specs.Prelude.{◌≡◌};
ghost use Rattle.held_processes.specs.Following.{HoldsNothing};

use loaded_modules::Loaded;
use proc_table::{HandlerSeat, ProcTable};
use rel_files::App;
use std::alloc::Global;
use std::marker::Brand;
use std::sync::Wait;
use sup_tree::Tree;
use table_access::{Lent, Seating, TableAccess};
use text_cases::Answer;

/// An application, and the modules that are loaded.
#[derive(Clone, Copy)]
pub(crate) struct Start<'a> {
    pub(crate) app: &'a App,
    pub(crate) loaded: &'a Loaded,
}

/// Starts the application alone. Appends why it isn't started.
pub(crate) fn start_app<R: Wait>(
    rt: &R,
    alloc: Global,
    table: &ProcTable,
    seat: &mut HandlerSeat,
    start: &Start<'_>,
    answer: &mut Answer,
) -> Option<Tree>
    requires table { seat.old.table ≡ table.now }
    requires nothing { HoldsNothing seat.old.view }
    ensures table { seat.new.table ≡ seat.old.table }
    ensures nothing { HoldsNothing seat.new.view }
{
    let mut tree = None;
    let lent = Lent { table, seat };
    let _ = start_app_at::<R, Brand>(rt, alloc, lent, start, &mut tree, answer);
    tree
}

fn start_app_at<'t, R: Wait, S: Seating>(
    rt: &R,
    alloc: Global,
    lent: Lent<'t>,
    start: &Start<'_>,
    started: &mut Option<Tree>,
    answer: &mut Answer,
) -> &'t mut HandlerSeat
    requires name { lent.seat.ghost_name ≡ S.name }
    requires table { (lent.seat.now.table ≡ S.table) × (lent.table.now ≡ S.table) }
    requires nothing { HoldsNothing lent.seat.now.view }
    ensures name { result.ghost_name ≡ S.name }
    ensures table { result.now.table ≡ S.table }
    ensures nothing { HoldsNothing result.now.view }
{
    let mut access: TableAccess<'t, S> = TableAccess::new(lent);
    let mut tree = Tree::new(alloc);
    match tree.start_app(rt, alloc, &mut access, start.app, start.loaded) {
        Ok(()) => *started = Some(tree),
        Err(error) => answer.push_shown(&error),
    }
    access.into_seat()
}
