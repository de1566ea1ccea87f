//! What the handler's entries make of what stands in a slot.
ghost use Rattle.std.specs.Prelude.{◌≡◌, IfOk};
ghost use Rattle.erl_term.specs.Value.{value_of};
ghost use Rattle.mod_table.specs.InMemory.{old_of};
ghost use Rattle.proc_history.specs.Events.Event.{changed, loaded, stopped, started, given_up};
ghost use Rattle.proc_history.specs.Changes.{Begins, finds_row, finds_row_if};
ghost use Rattle.proc_history.specs.Values.{after, begun, changes, moved_to, next_round, restarted, where_up};

use crate::{Beginning, Now, Standing, Value};
use erl_term::Term;
use mod_table::{Old, Worker};
use std::alloc::{AllocError, Global};

impl Value {
    /// An equal value.
    pub fn copy(&self, alloc: Global) -> Result<Value, AllocError>
        ensures { IfOk result (λ value. value ≡ self.entry.now) }
    {
        match &self.now {
            Some(now) => Ok(Value {
                round: self.round,
                now: Some(now.copy(alloc)?),
            }),
            None => Ok(Value {
                round: self.round,
                now: None,
            }),
        }
    }

    /// The round of the process that begins next here. Nothing where one stands, or where the last round was used.
    pub fn next_round(&self) -> Option<u32>
        ensures { result ≡ next_round self.entry.now }
    {
        if self.now.is_some() {
            return None;
        }
        self.round.checked_add(1)
    }

    /// A process begins with the next round. It doesn't, and nothing changes, where one stands, or where the last round was
    /// used.
    pub fn begin(&mut self, begins: Beginning) -> Result<u32, Beginning>
        ensures { Begins self.old begins result self.new }
    {
        if self.now.is_some() || self.round == u32::MAX {
            return Err(begins);
        }
        self.round += 1;
        self.now = Some(Now::of(begins));
        Ok(self.round)
    }

    /// The process has this table from now on. Nothing changes where none stands.
    pub fn load(&mut self, table: Worker)
        ensures { self.new ≡ after self.old (loaded table) }
    {
        match &mut self.now {
            Some(now) => now.table = table,
            None => {}
        }
    }

    /// A change of code from this version, with this extra term. It is false, and nothing changes, where the process is
    /// up and its table has no row for it. It takes no memory.
    pub fn change(&mut self, old: &Old, extra: &Term) -> bool
        ensures found { result ≡ finds_row (old_of old.now) (value_of extra.now) self.old }
        ensures value { self.new ≡ after self.old (changed (old_of old.now) (value_of extra.now)) }
    {
        match &mut self.now {
            Some(now) => now.change(old, extra),
            None => true,
        }
    }

    /// A process that is up is stopped.
    pub fn stop(&mut self)
        ensures { self.new ≡ after self.old stopped }
    {
        match &mut self.now {
            Some(now) => now.stop(),
            None => {}
        }
    }

    /// A process that was stopped is up, in its table's first state.
    pub fn start(&mut self)
        ensures { self.new ≡ after self.old started }
    {
        match &mut self.now {
            Some(now) => now.start(),
            None => {}
        }
    }

    /// Nothing stands here any more.
    pub fn give_up(&mut self)
        ensures { self.new ≡ after self.old given_up }
    {
        self.now = None;
    }
}

impl Now {
    fn of(begins: Beginning) -> Now
        ensures { result ≡ begun begins }
    {
        let Beginning {
            app,
            id,
            restart,
            table,
        } = begins;
        let state = table.first();
        Now {
            app,
            id,
            restart,
            table,
            state,
            standing: Standing::Up,
        }
    }

    fn copy(&self, alloc: Global) -> Result<Now, AllocError>
        ensures { IfOk result (λ now. now ≡ self.now) }
    {
        Ok(Now {
            app: self.app.copy(alloc)?,
            id: self.id.copy(alloc)?,
            restart: self.restart,
            table: self.table.copy(alloc)?,
            state: self.state,
            standing: self.standing,
        })
    }

    fn change(&mut self, old: &Old, extra: &Term) -> bool
        ensures found { result
            ≡ finds_row_if (old_of old.now) (value_of extra.now) self.old self.old.standing }
        ensures now { self.new ≡ where_up
            (λ n. moved_to n (changes n (old_of old.now) (value_of extra.now)))
            self.old self.old.standing }
    {
        match self.standing {
            Standing::Up => match self.table.change(old, extra, self.state) {
                Some(state) => {
                    self.state = state;
                    true
                }
                None => false,
            },
            _ => true,
        }
    }

    fn stop(&mut self)
        ensures { self.new
            ≡ where_up (λ n. record n { standing = Standing.Stopped }) self.old self.old.standing }
    {
        match self.standing {
            Standing::Up => self.standing = Standing::Stopped,
            _ => {}
        }
    }

    fn start(&mut self)
        ensures { self.new ≡ restarted self.old self.old.standing }
    {
        match self.standing {
            Standing::Stopped => {
                self.state = self.table.first();
                self.standing = Standing::Up;
            }
            _ => {}
        }
    }
}
