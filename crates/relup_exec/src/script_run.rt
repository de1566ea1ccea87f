//! A script that is carried out, and how far it came.
ghost use Rattle.std.specs.Prelude.{◌≡◌, ◌<◌, ◌+◌, ◌^◌, ◌++◌, [], ◌∷◌, IfOk, OnErr, OnOk, length, true, vec_capacity};
ghost use Rattle.held_processes.specs.Course.{on_all};
ghost use Rattle.held_processes.specs.Course.Operation.{finish, pass_point};
ghost use Rattle.held_processes.specs.Following.{AllFollow, AreLeft, AreLonger, Followed};
ghost use Rattle.relup_instruction.specs.Instruction.{instruction_of};
ghost use Rattle.script_progress.specs.InMemory.{site_of};
ghost use Rattle.script_progress.specs.Steps.{CarriesOut, CarriesOutLate, GoesByLooks, HasDone, IsEarly, IsLate, Past, progress_of};
ghost use Rattle.relup_exec.specs.InMemory.{SameScript};

use crate::{Failed, carry_out_early, carry_out_late};
use loaded_modules::Loaded;
use relup_instruction::Instr;
use script_progress::{Failure, Progress, Sources};
use std::alloc::Global;
use std::sync::Wait;
use sup_tree::Tree;
use table_access::{Seating, TableAccess};

/// A script that is carried out, and how far it came.
pub(crate) struct ScriptRun<'r> {
    pub(crate) sources: &'r Sources<'r>,
    pub(crate) script: &'r [Instr],
    /// How many of its instructions are done.
    pub(crate) done: usize,
    /// What was reported of each of these after the point of no return.
    pub(crate) reported: Vec<bool>,
    pub(crate) progress: Progress,
}

/// What is started and loaded once a script has ended.
#[derive(Drop)]
pub(crate) struct Ended {
    pub(crate) tree: Tree,
    pub(crate) loaded: Loaded,
}

impl ScriptRun<'_> {
    /// Carries out the next instruction, before the point of no return.
    pub(crate) fn next_early<R: Wait, S: Seating>(
        &mut self,
        rt: &R,
        alloc: Global,
        access: &mut TableAccess<'_, S>,
        instr: &Instr,
    ) -> Result<(), Failure>
        ghost past: { Past }
        requires early { IsEarly (instruction_of instr.now) }
        requires inside { self.old.done < length self.old.script.now }
        requires done { HasDone past (progress_of self.old.progress) self.old.progress.tree
            access.old }
        ensures same { SameScript self.old self.new }
        ensures reported { self.new.reported ≡ self.old.reported }
        ensures counted { OnOk result (self.new.done ≡ self.old.done + 1) }
        ensures longer { AreLonger access.old access.new }
        ensures carried { CarriesOut (site_of self.old.sources.now) past true
            (instruction_of instr.now) result (progress_of self.new.progress)
            self.new.progress.tree access.old access.new }
    {
        match carry_out_early(&mut self.progress, rt, alloc, access, self.sources, instr) {
            Ok(()) => {
                self.done += 1;
                Ok(())
            }
            Err(failure) => Err(failure),
        }
    }

    /// The point of no return, which is the next instruction: what is held for a load alone is let go.
    pub(crate) fn pass_point<S: Seating>(&mut self, access: &mut TableAccess<'_, S>)
        ghost followed: { Followed }
        requires inside { self.old.done < length self.old.script.now }
        requires follow { AllFollow followed.first followed.courses self.old.progress.held
            access.old }
        ensures same { SameScript self.old self.new }
        ensures reported { self.new.reported ≡ self.old.reported }
        ensures counted { self.new.done ≡ self.old.done + 1 }
        ensures rest { (self.new.progress.fetched ≡ self.old.progress.fetched)
            × (self.new.progress.next ≡ self.old.progress.next)
            × (self.new.progress.tree ≡ self.old.progress.tree) }
        ensures longer { AreLonger access.old access.new }
        ensures passed { AllFollow followed.first (on_all pass_point followed.courses)
            self.new.progress.held access.new }
    {
        self.progress.held.pass_point(access);
        self.done += 1;
    }

    /// Carries out the next instruction, after the point of no return, and reports whether the child that it is on, if it is on
    /// one, was left as it is.
    pub(crate) fn next_late<R: Wait, S: Seating>(
        &mut self,
        rt: &R,
        alloc: Global,
        access: &mut TableAccess<'_, S>,
        instr: &Instr,
    ) -> Result<bool, Failure>
        ghost past: { Past }
        requires late { IsLate (instruction_of instr.now) }
        requires inside { self.old.done < length self.old.script.now }
        requires room { length self.old.reported.items < vec_capacity self.old.reported }
        requires done { HasDone past (progress_of self.old.progress) self.old.progress.tree
            access.old }
        ensures same { SameScript self.old self.new }
        ensures counted { OnOk result (self.new.done ≡ self.old.done + 1) }
        ensures reported { IfOk result (λ stays.
            self.new.reported.items ≡ self.old.reported.items ++ stays ∷ []) }
        ensures unreported { OnErr result ((self.new.reported ≡ self.old.reported)
            × (self.new.done ≡ self.old.done)) }
        ensures room { vec_capacity self.new.reported ≡ vec_capacity self.old.reported }
        ensures longer { AreLonger access.old access.new }
        ensures carried { CarriesOutLate (site_of self.old.sources.now) past
            (instruction_of instr.now) result (progress_of self.new.progress)
            self.new.progress.tree access.old access.new }
        ensures looked { GoesByLooks past (instruction_of instr.now) result
            access.old access.new }
    {
        match carry_out_late(&mut self.progress, rt, alloc, access, self.sources, instr) {
            Ok(stays) => {
                self.reported.push_reserved(stays);
                self.done += 1;
                Ok(stays)
            }
            Err(failure) => Err(failure),
        }
    }

    /// The next instruction failed: what is still held is let go.
    pub(crate) fn close<S: Seating>(
        self,
        access: &mut TableAccess<'_, S>,
        failure: Failure,
    ) -> Failed
        ghost followed: { Followed }
        requires inside { self.done < length self.script.now }
        requires follow { AllFollow followed.first followed.courses self.progress.held access.old }
        requires numbered { length self.script.now < 2 ^ 32 }
        ensures instr { result.instr ≡ self.entry.done + 1 }
        ensures cause { result.cause ≡ failure.cause }
        ensures left { AreLeft followed.first (on_all finish followed.courses) access.new }
        ensures longer { AreLonger access.old access.new }
    {
        let ScriptRun {
            sources: _sources,
            script: _script,
            done,
            reported: _reported,
            progress,
        } = self;
        let Progress {
            held,
            fetched: _fetched,
            next: _next,
            tree: _tree,
        } = progress;
        held.finish(access);
        let Failure { cause, .. } = failure;
        Failed {
            instr: done as u32 + 1,
            cause,
        }
    }

    /// The script has ended: what is still held is let go.
    pub(crate) fn end<S: Seating>(self, access: &mut TableAccess<'_, S>) -> Ended
        ghost followed: { Followed }
        requires follow { AllFollow followed.first followed.courses self.progress.held access.old }
        ensures tree { result.tree ≡ self.entry.progress.tree }
        ensures loaded { result.loaded ≡ self.entry.progress.next }
        ensures left { AreLeft followed.first (on_all finish followed.courses) access.new }
        ensures longer { AreLonger access.old access.new }
    {
        let ScriptRun {
            sources: _sources,
            script: _script,
            done: _done,
            reported: _reported,
            progress,
        } = self;
        let Progress {
            held,
            fetched: _done,
            next,
            tree,
        } = progress;
        held.finish(access);
        Ended { tree, loaded: next }
    }
}
