//! What a session has done up to each of its commands.
use crate::release_table::ReleaseTable;
use crate::runs::{CAPACITY, LOG, Session, run};
use rel_disk::{FailDisk, MemDisk};
use std::alloc::{AllocError, Global};
use std::sync::Wait;
use std::thread::Threads;

/// After each command of a session on a disk that never fails, none of them first: what was written by then, how many calls of the disk
/// were made, and what a boot has to report. What was written tells which commands were done; what they make of the releases is
/// reckoned by a [`ReleaseTable`].
#[derive(Drop)]
pub(crate) struct Expected {
    steps: Vec<Step>,
}

#[derive(Drop)]
struct Step {
    written: String,
    calls: u64,
    reported: String,
    // what a boot reports where the last command has not booted yet
    within: String,
}

impl Expected {
    pub(crate) fn of<H: Threads + Wait + Sync>(
        rt: &H,
        alloc: Global,
        session: &Session,
    ) -> Result<Expected, AllocError> {
        let mut table = ReleaseTable::new(alloc);
        let mut steps = Vec::new(alloc);
        steps.push(first_step(rt, alloc, session, &table)?)?;
        let mut expected = Expected { steps };
        for (place, command) in session.commands.iter().enumerate() {
            let lines = session.lines(alloc, place.saturating_add(1))?;
            expected.add(rt, alloc, lines, command.as_str(), &mut table)?;
        }
        Ok(expected)
    }

    // Notes what a session of these lines writes, of which this command is the last.
    fn add<'s, H: Threads + Wait + Sync>(
        &mut self,
        rt: &H,
        alloc: Global,
        lines: String,
        command: &'s str,
        table: &mut ReleaseTable<'s>,
    ) -> Result<(), AllocError> {
        let (written, calls) = written_by(rt, alloc, lines)?;
        let answer = written
            .strip_prefix(self.written(self.last()))
            .unwrap_or("");
        let restarts = command.starts_with("install ") && answer.lines().count() == 2;
        if answer.starts_with("ok") {
            table.accept(command, restarts)?;
        }
        let within = table.report_of_boot(alloc)?;
        if restarts || command.starts_with("reboot_old ") {
            table.boot();
        }
        let reported = table.report_of_boot(alloc)?;
        self.steps.push(Step {
            written,
            calls,
            reported,
            within,
        })?;
        Ok(())
    }

    // The number of the last step.
    fn last(&self) -> usize {
        self.steps.len().saturating_sub(1)
    }

    /// How many commands a session had answered that has written this, before an answer was another one.
    pub(crate) fn answered(&self, text: &str) -> usize {
        let mut answered = 0;
        for (count, step) in self.steps.iter().enumerate() {
            if text.starts_with(step.written.as_str()) {
                answered = count;
            }
        }
        answered
    }

    /// What it had written by then.
    pub(crate) fn written(&self, answered: usize) -> &str {
        self.steps
            .get(answered)
            .map_or("", |step| step.written.as_str())
    }

    /// How many calls of the disk so many commands make.
    pub(crate) fn calls(&self, commands: usize) -> u64 {
        self.steps.get(commands).map_or(0, |step| step.calls)
    }

    /// How many calls of the disk the whole session makes.
    pub(crate) fn all_calls(&self) -> u64 {
        self.calls(self.last())
    }

    /// Which command makes the call of this number, both counted from 0.
    pub(crate) fn command_of(&self, call: u64) -> usize {
        let mut command = 0;
        for (count, step) in self.steps.iter().enumerate() {
            if step.calls <= call {
                command = count;
            }
        }
        command
    }

    /// Whether a boot may report this after so many answers: what is reported after these commands, or after one more, or after one
    /// that hasn't booted yet.
    pub(crate) fn explains(&self, answered: usize, boot: &str) -> bool {
        let is_before = |step: &Step| step.reported.as_str() == boot;
        let is_after = |step: &Step| is_before(step) || step.within.as_str() == boot;
        self.steps.get(answered).is_some_and(is_before)
            || self
                .steps
                .get(answered.saturating_add(1))
                .is_some_and(is_after)
    }
}

fn first_step<H: Threads + Wait + Sync>(
    rt: &H,
    alloc: Global,
    session: &Session,
    table: &ReleaseTable<'_>,
) -> Result<Step, AllocError> {
    let (written, calls) = written_by(rt, alloc, session.lines(alloc, 0)?)?;
    Ok(Step {
        written,
        calls,
        reported: table.report_of_boot(alloc)?,
        within: table.report_of_boot(alloc)?,
    })
}

// What a session of these lines writes, and how many calls of the disk it makes.
fn written_by<H: Threads + Wait + Sync>(
    rt: &H,
    alloc: Global,
    lines: String,
) -> Result<(String, u64), AllocError> {
    let disk = FailDisk::new(MemDisk::new(alloc, CAPACITY, LOG)?, u64::MAX);
    let (disk, written) = run(rt, alloc, disk, lines.as_str())?;
    Ok((written, u64::MAX - disk.plan.left))
}
