//! Processes that begin.
ghost use Rattle.std.specs.Prelude.{◌≡◌, [], IfSome};

use mod_table::{Restart, Table, read_mod};
use proc_history::{Beginning, Name};
use proc_table::{HandlerSeat, Pid, ProcTable};
use std::alloc::Global;
use std::sync::Wait;
use text_cases::Answer;

/// A worker that counts its calls, and may end.
const CH3: &[u8] = b"{worker,ch3,\"1\",0,[{add,1,1},{on,4,7,40,400},{stop,2,3,9}]}.";

fn name(alloc: Global, text: &str) -> Option<Name> {
    Some(Name::new(String::from_str(alloc, text).ok()?))
}

/// What a process begins with, which is permanent unless it is to be `temporary`. Nothing where no memory is there.
pub(crate) fn beginning(alloc: Global, how: &str) -> Option<Beginning> {
    let restart = if how == "temporary" {
        Restart::Temporary
    } else {
        Restart::Permanent
    };
    match read_mod(alloc, CH3) {
        Ok(Table::Worker(table)) => Some(Beginning {
            app: name(alloc, "ch_app")?,
            id: name(alloc, "ch3")?,
            restart,
            table,
        }),
        _ => None,
    }
}

/// A process begins in the slot of a Pid, or in the lowest in which one can, where there is no Pid.
pub(crate) fn begin<R: Wait>(
    rt: &R,
    alloc: Global,
    table: &ProcTable,
    seat: &mut HandlerSeat,
    pid: Option<Pid>,
    how: &str,
    answer: &mut Answer,
) -> Option<Pid>
    requires { seat.old.table ≡ table.now }
    ensures { seat.new.table ≡ seat.old.table }
{
    let Some(begins) = beginning(alloc, how) else {
        answer.note_no_memory();
        return None;
    };
    match pid {
        Some(pid) => table.begin(rt, seat, pid, begins).ok(),
        None => table.begin_lowest(rt, seat, begins).ok(),
    }
}

/// A new table, and a process that begins in it. Nothing where no memory is there.
pub(crate) fn begun<R: Wait>(
    rt: &R,
    alloc: Global,
    how: &str,
) -> Option<(ProcTable, HandlerSeat, Pid)>
    ensures table { IfSome result (λ begun. begun.1.table ≡ begun.0) }
    ensures alone { IfSome result (λ begun. begun.1.view.lent ≡ []) }
{
    let begins = beginning(alloc, how)?;
    let (table, mut seat) = ProcTable::new(alloc).ok()?;
    let pid = table.begin_lowest(rt, &mut seat, begins).ok()?;
    Some((table, seat, pid))
}

/// Appends the name of a process, if there is one.
pub(crate) fn push_pid(pid: Option<Pid>, answer: &mut Answer) {
    match pid {
        Some(pid) => {
            answer.push_counted("", pid.slot as u64);
            answer.push_counted(" ", pid.round as u64);
        }
        None => answer.push("none"),
    }
}
