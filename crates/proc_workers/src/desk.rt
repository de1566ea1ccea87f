//! What a worker has in hand between two notes.
ghost use Rattle.std.specs.Prelude.{◌≡◌, ◌<◌, ◌+◌, [], length, OnOk, vec_capacity, true, false};
ghost use Rattle.proc_workers.specs.declared.note.Note.TheVariants as note;
ghost use Rattle.proc_workers.specs.Desks.{AnswersJob, HandsBack, HasRoomFor, IsAt, KeepsJobs, SameDesk, TakesNote};
ghost use Rattle.proc_workers.specs.Work.{HasAnswer};

use crate::{Answer, EndCause, Ended, Gate, Inbox, Job};
use proc_table::{Pass, Pid, ProcTable, Tried};
use std::alloc::{AllocError, Global};
use std::sync::Wait;

/// The pass, the answers so far, and the jobs that are kept until the worker goes on.
pub(crate) struct Desk {
    pub(crate) pass: Pass,
    pub(crate) answers: Vec<Answer>,
    pub(crate) kept: Vec<Job>,
    pub(crate) suspended: bool,
}

impl Desk {
    pub(crate) fn new(alloc: Global, pass: Pass) -> Desk
        ensures { (result.pass ≡ pass) × ((pid : Pid) → IsAt pid pass.view [] result) }
    {
        Desk {
            pass,
            answers: Vec::new(alloc),
            kept: Vec::new(alloc),
            suspended: false,
        }
    }

    // Makes room for a job more, and for its answer.
    pub(crate) fn make_room(&mut self) -> Result<(), AllocError>
        ensures same { SameDesk self.old self.new }
        ensures room { OnOk result (HasRoomFor 1 self.new) }
    {
        self.kept.reserve(1)?;
        self.answers.reserve(self.kept.len() + 1)
    }

    pub(crate) fn suspend(&mut self)
        requires room { HasRoomFor 1 self.old }
        ensures table { self.new.pass.table ≡ self.old.pass.table }
        ensures took { (pid : Pid) → TakesNote pid note.Suspend self.old self.new }
    {
        self.suspended = true;
    }

    // Answers the jobs that were kept.
    pub(crate) fn resume<G: Gate, R: Wait>(&mut self, rt: &R, table: &ProcTable, pid: Pid, gate: &G)
        requires table { self.old.pass.table ≡ table.now }
        requires room { HasRoomFor 1 self.old }
        ensures table { self.new.pass.table ≡ self.old.pass.table }
        ensures took { TakesNote pid note.Resume self.old self.new }
    {
        for at in 0..self.kept.len() {
            let job = self.kept[at];
            self.answer(rt, table, pid, gate, job);
        }
        self.kept.clear();
        self.suspended = false;
    }

    // Answers the job, or keeps it while the worker is suspended.
    pub(crate) fn take_job<G: Gate, R: Wait>(
        &mut self,
        rt: &R,
        table: &ProcTable,
        pid: Pid,
        gate: &G,
        job: Job,
    )
        requires table { self.old.pass.table ≡ table.now }
        requires room { HasRoomFor 1 self.old }
        ensures table { self.new.pass.table ≡ self.old.pass.table }
        ensures took { TakesNote pid (note.Job job) self.old self.new }
    {
        if self.suspended {
            self.kept.push_reserved(job);
        } else {
            self.answer(rt, table, pid, gate, job);
        }
    }

    fn answer<G: Gate, R: Wait>(&mut self, rt: &R, table: &ProcTable, pid: Pid, gate: &G, job: Job)
        requires table { self.old.pass.table ≡ table.now }
        requires room { length self.old.answers.items < vec_capacity self.old.answers }
        ensures table { self.new.pass.table ≡ self.old.pass.table }
        ensures answered { AnswersJob pid job self.old self.new }
        ensures rest { KeepsJobs self.old self.new }
    {
        gate.before(&job);
        let tried = try_job(rt, table, &mut self.pass, pid, &job);
        let answer = Answer {
            number: job.number,
            pid: job.pid,
            input: job.input,
            tried,
        };
        gate.after(&answer);
        self.answers.push_reserved(answer);
    }

    pub(crate) fn end(self, inbox: Inbox, cause: EndCause) -> Ended
        ensures { HandsBack self inbox cause result }
    {
        let Desk {
            pass,
            answers,
            kept,
            suspended: _suspended,
        } = self;
        Ended {
            pass,
            inbox,
            answers,
            left: kept,
            cause,
        }
    }
}

// What a worker of this process answers to a job.
fn try_job<R: Wait>(rt: &R, table: &ProcTable, pass: &mut Pass, pid: Pid, job: &Job) -> Tried
    requires { pass.old.table ≡ table.now }
    ensures table { pass.new.table ≡ pass.old.table }
    ensures answered { HasAnswer pid pass.old.view job.now result pass.new.view }
{
    if !job.names(pid) {
        return Tried::Down;
    }
    table.call(rt, pass, pid, job.input)
}
