//! What stands in a slot.
ghost use Rattle.std.specs.Prelude.{◌≡◌};
ghost use Rattle.std.specs.Option.{option_map};
ghost use Rattle.proc_history.specs.Values.{nothing, up_if, answer, called, ended, starts_again, where_up, outcome_of};
ghost use Rattle.proc_history.specs.Outcomes.{outcome_in, outcome_in_now, state_in, after_call};

use crate::Name;
use mod_table::{Restart, Step, Worker};

/// What a process is at.
#[derive(Clone, Copy)]
pub enum Standing {
    /// The process answers calls.
    Up,
    /// The process ended, and isn't started again.
    Down,
    /// The process was stopped for a change of code.
    Stopped,
}

/// What comes of a call that reached a process.
#[derive(Clone, Copy)]
pub enum Outcome {
    /// The reply.
    Done(u32),
    /// The process ended abnormally, without a reply.
    Crashed,
    /// The last reply of a process that ended normally.
    Ended(u32),
}

/// A process.
pub struct Now {
    pub app: Name,
    pub id: Name,
    pub restart: Restart,
    pub table: Worker,
    pub state: u32,
    pub standing: Standing,
}

// Let go by one call: a derived drop would stand field by field at each exit of a caller.
impl Drop for Now {
    fn drop(self) {
        let Now {
            app: _app,
            id: _id,
            restart: _restart,
            table: _table,
            state: _state,
            standing: _standing,
        } = self;
    }
}

/// What stands in a slot: the round of the last process that began there, and that process, unless it was given up.
#[derive(Drop)]
pub struct Value {
    pub round: u32,
    pub now: Option<Now>,
}

impl Value {
    /// What stands in a slot where no process ever began. It takes no memory.
    pub fn nothing() -> Value
        ensures { result ≡ nothing }
    {
        Value {
            round: 0,
            now: None,
        }
    }

    /// A call of the process of this round. Nothing where none is up.
    pub fn call(&mut self, round: u32, input: u32) -> Option<Outcome>
        ensures outcome { result ≡ outcome_in round input self.old }
        ensures value { self.new ≡ after_call self.old input result }
    {
        if self.round != round {
            return None;
        }
        match &mut self.now {
            Some(now) => now.call(input),
            None => None,
        }
    }

    /// The state of the process of this round. Nothing where none is up.
    pub fn state(&self, round: u32) -> Option<u32>
        ensures { result ≡ state_in round self.entry.now }
    {
        if self.round != round {
            return None;
        }
        match &self.now {
            Some(now) => now.state_if_up(),
            None => None,
        }
    }
}

impl Now {
    fn call(&mut self, input: u32) -> Option<Outcome>
        ensures outcome { result ≡ outcome_in_now self.old input }
        ensures now { self.new
            ≡ where_up (λ n. called n (answer n input)) self.old self.old.standing }
    {
        match self.standing {
            Standing::Up => {
                let step = self.table.step(self.state, input);
                self.becomes(step);
                Some(Outcome::of(step))
            }
            _ => None,
        }
    }

    // What the process is at after its table answered a call so.
    fn becomes(&mut self, step: Step)
        ensures { self.new ≡ called self.old step }
    {
        match step {
            Step::Next(state, _) => self.state = state,
            Step::Ends(_) => self.ends(false),
            Step::Crashes => self.ends(true),
        }
    }

    // A process that ends is started again where its restart type says so (OTP: supervisor, restart()).
    fn ends(&mut self, abnormal: bool)
        ensures { self.new ≡ ended self.old (starts_again self.old.restart abnormal) }
    {
        if starts_again(self.restart, abnormal) {
            self.state = self.table.first();
        } else {
            self.standing = Standing::Down;
        }
    }

    fn state_if_up(&self) -> Option<u32>
        ensures { result ≡ option_map (λ n. n.state) (up_if self.now self.now.standing) }
    {
        match self.standing {
            Standing::Up => Some(self.state),
            _ => None,
        }
    }
}

fn starts_again(restart: Restart, abnormal: bool) -> bool
    ensures { result ≡ starts_again restart abnormal }
{
    match restart {
        Restart::Permanent => true,
        Restart::Transient => abnormal,
        Restart::Temporary => false,
    }
}

impl Outcome {
    fn of(step: Step) -> Outcome
        ensures { result ≡ outcome_of step }
    {
        match step {
            Step::Next(_, reply) => Outcome::Done(reply),
            Step::Ends(reply) => Outcome::Ended(reply),
            Step::Crashes => Outcome::Crashed,
        }
    }
}
