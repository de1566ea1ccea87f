//! What commands on processes answer.
ghost use Rattle.std.specs.Prelude.{◌≡◌, string_bytes, IfOk, OnErr};
ghost use Rattle.proc_table.specs.Waits.{IsAnswer};
ghost use Rattle.node_processes.specs.Answers.{call_line, called, modules_line, peek_line, processes_line};
ghost use Rattle.node_processes.specs.Floods.{counts_line, flood_line, flooded, LeftByCalls};
ghost use Rattle.node_processes.specs.InMemory.{AreSound, processes_in, tried_line};

use crate::Processes;
use node_listing::{push_count, push_module};
use proc_table::{Pid, Tried};
use proc_workers::{FloodCounts, flood};
use std::alloc::{AllocError, Global};
use std::sync::Wait;
use std::thread::Threads;

const NO_PROCESS: &str = "error session 2 NoProcess\n";

impl Processes {
    /// The answer to `procs`: a line for each process, in order of slots, and how many there are. It waits for the slots, as
    /// each command on processes does.
    pub fn list<R: Wait>(&mut self, rt: &R, alloc: Global) -> Result<String, AllocError>
        requires { AreSound self.old }
        ensures sound { AreSound self.new }
        ensures same { processes_in self.new ≡ processes_in self.old }
        ensures reported { IfOk result (λ text.
            string_bytes text ≡ processes_line (processes_in self.old)) }
    {
        let mut text = String::new(alloc);
        let mut count = 0;
        for slot in 0..Pid::count() {
            let Some(pid) = Pid::new(slot, 0) else {
                unreachable!();
            };
            self.push_slot(rt, alloc, pid, &mut text, &mut count)?;
        }
        push_count(alloc, &mut text, count)?;
        Ok(text)
    }

    /// The answer to `modules`: a line for each loaded module, by the bytes of its name, and how many there are.
    pub fn list_modules(&self, alloc: Global) -> Result<String, AllocError>
        ensures { IfOk result (λ text. string_bytes text ≡ modules_line (processes_in self.now)) }
    {
        let versions = self.loaded.versions(alloc)?;
        let mut text = String::new(alloc);
        for module in versions.as_slice() {
            push_module(alloc, &mut text, module.0, module.1)?;
        }
        push_count(alloc, &mut text, versions.len())?;
        Ok(text)
    }

    /// The answer to `peek`: the state of the process and the version of its module, `down` where it isn't up, or that the
    /// application has no such process.
    pub fn peek<R: Wait>(
        &mut self,
        rt: &R,
        alloc: Global,
        app: &str,
        id: &str,
    ) -> Result<String, AllocError>
        requires { AreSound self.old }
        ensures sound { AreSound self.new }
        ensures same { processes_in self.new ≡ processes_in self.old }
        ensures reported { IfOk result (λ text.
            string_bytes text ≡ peek_line app.now id.now (processes_in self.old)) }
    {
        match self.tree.find(app, id) {
            Some(pid) => self.state_line(rt, alloc, pid),
            None => String::from_str(alloc, NO_PROCESS),
        }
    }

    /// Calls a process. The answer reports its reply, or how it ended; `down` where it isn't up, or that the application has no
    /// such process. Where memory is refused, the call was made.
    pub fn call<R: Wait>(
        &mut self,
        rt: &R,
        alloc: Global,
        app: &str,
        id: &str,
        input: u32,
    ) -> Result<String, AllocError>
        requires { AreSound self.old }
        ensures sound { AreSound self.new }
        ensures called { processes_in self.new
            ≡ called app.now id.now input (processes_in self.old) }
        ensures reported { IfOk result (λ text.
            string_bytes text ≡ call_line app.now id.now input (processes_in self.old)) }
    {
        match self.tree.find(app, id) {
            Some(pid) => {
                let tried = self.table.call_alone(rt, &mut self.seat, pid, input);
                line_of_call(alloc, tried)
            }
            None => String::from_str(alloc, NO_PROCESS),
        }
    }

    /// Calls a process so often with one input, from threads. The answer reports how often each outcome came, and how often the
    /// process was down; or that the application has no such process. Where memory is refused, some of the calls may have been
    /// made, and no others.
    pub fn flood<R: Threads + Wait + Sync>(
        &mut self,
        rt: &R,
        alloc: Global,
        app: &str,
        id: &str,
        input: u32,
        times: u32,
    ) -> Result<String, AllocError>
        requires { AreSound self.old }
        ensures sound { AreSound self.new }
        ensures flooded { IfOk result (λ _. processes_in self.new
            ≡ flooded app.now id.now input times (processes_in self.old)) }
        ensures reported { IfOk result (λ text. string_bytes text
            ≡ flood_line app.now id.now input times (processes_in self.old)) }
        ensures refused { OnErr result (LeftByCalls app.now id.now input times
            (processes_in self.old) (processes_in self.new)) }
    {
        match self.tree.find(app, id) {
            Some(pid) => {
                let counts = flood(rt, alloc, &self.table, &mut self.seat, pid, input, times)?;
                line_of_counts(alloc, counts)
            }
            None => String::from_str(alloc, NO_PROCESS),
        }
    }
}

// What `flood` answers of a process.
fn line_of_counts(alloc: Global, counts: FloodCounts) -> Result<String, AllocError>
    ensures { IfOk result (λ text. string_bytes text
        ≡ counts_line counts.done counts.crashed counts.ended counts.down) }
{
    let FloodCounts {
        done,
        crashed,
        ended,
        down,
    } = counts;
    format!(in alloc; "ok done {done} crashed {crashed} ended {ended} down {down}\n")
}

// What `call` answers of a process.
fn line_of_call(alloc: Global, tried: Tried) -> Result<String, AllocError>
    requires { IsAnswer tried }
    ensures { IfOk result (λ text. string_bytes text ≡ tried_line tried) }
{
    match tried {
        Tried::Done(reply) => format!(in alloc; "ok {reply}\n"),
        Tried::Crashed => String::from_str(alloc, "crashed\n"),
        Tried::Ended(reply) => format!(in alloc; "ended {reply}\n"),
        Tried::Down => String::from_str(alloc, "down\n"),
        Tried::Busy | Tried::Held => unreachable!(),
    }
}
