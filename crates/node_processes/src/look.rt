//! A look at what stands in a slot.
ghost use Rattle.std.specs.Prelude.{◌≡◌, ◌+◌, ◌<◌, ◌++◌, is_some, if◌then◌else◌, string_bytes, IfOk, OnOk};
ghost use Rattle.std.specs.Option.{option_copied};
ghost use Rattle.node_listing.specs.Listing.{process_line};
ghost use Rattle.proc_history.specs.Histories.{replay};
ghost use Rattle.proc_history.specs.Values.{up_in};
ghost use Rattle.proc_table.specs.Agrees.{slots};
ghost use Rattle.proc_table.specs.Views.{seen};
ghost use Rattle.node_processes.specs.Answers.{state_line};
ghost use Rattle.node_processes.specs.InMemory.{AreSound, processes_in};

use crate::Processes;
use node_listing::push_process;
use proc_table::{Now, Pid, Standing, Value};
use std::alloc::{AllocError, Global};
use std::sync::Wait;

impl Processes {
    /// Puts the line of the process in a slot at the end, and counts it. Where none stands there is none.
    pub(crate) fn push_slot<R: Wait>(
        &mut self,
        rt: &R,
        alloc: Global,
        pid: Pid,
        text: &mut String,
        count: &mut usize,
    ) -> Result<(), AllocError>
        requires sound { AreSound self.old }
        requires few { count.old < slots }
        ensures sound { AreSound self.new }
        ensures same { processes_in self.new ≡ processes_in self.old }
        ensures pushed { OnOk result (string_bytes text.new ≡ string_bytes text.old
            ++ process_line (replay (seen self.old.seat.view pid.slot))) }
        ensures counted { count.new ≡ count.old
            + (if is_some (replay (seen self.old.seat.view pid.slot)).now then 1 else 0) }
    {
        let held = self.table.hold(rt, &mut self.seat, pid);
        let value = held.value();
        if value.now.is_some() {
            *count += 1;
        }
        let pushed = push_process(alloc, text, value);
        self.table.release(&mut self.seat, held, &[]);
        pushed
    }

    /// The line that reports the state of the process, and the version of its module; or that it isn't up.
    pub(crate) fn state_line<R: Wait>(
        &mut self,
        rt: &R,
        alloc: Global,
        pid: Pid,
    ) -> Result<String, AllocError>
        requires { AreSound self.old }
        ensures sound { AreSound self.new }
        ensures same { processes_in self.new ≡ processes_in self.old }
        ensures reported { IfOk result (λ text. string_bytes text
            ≡ state_line (up_in pid.round (replay (seen self.old.seat.view pid.slot)))) }
    {
        let held = self.table.hold(rt, &mut self.seat, pid);
        let line = line_of_state(alloc, up_in(held.value(), pid.round));
        self.table.release(&mut self.seat, held, &[]);
        line
    }
}

// The process, if it is up in this round.
fn up_in(value: &Value, round: u32) -> Option<&Now>
    ensures { option_copied result ≡ up_in round value.entry.now }
{
    if value.round != round {
        return None;
    }
    let Some(process) = &value.now else {
        return None;
    };
    match process.standing {
        Standing::Up => Some(process),
        Standing::Down | Standing::Stopped => None,
    }
}

// What `peek` answers of a process that is up, or isn't.
fn line_of_state(alloc: Global, process: Option<&Now>) -> Result<String, AllocError>
    ensures { IfOk result (λ text. string_bytes text ≡ state_line (option_copied process.entry)) }
{
    let Some(process) = process else {
        return String::from_str(alloc, "down\n");
    };
    let state = process.state;
    let vsn = process.table.vsn();
    format!(in alloc; "ok {state} {vsn}\n")
}
