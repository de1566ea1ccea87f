//! A row as a table keeps it: its state and input as a key, which only a counted search compares, and what it does beside.
ghost use Rattle.std.specs.Prelude.{◌≡◌, IfOk, Some, None, if◌then◌else◌};
ghost use Rattle.erl_term.specs.Value.{value_of};
ghost use Rattle.worker_table.specs.Decide.{call_of, fits_change, moved, moved_by};
ghost use Rattle.worker_table.specs.Headed.{row_has_version};
ghost use Rattle.worker_table.specs.InMemory.{keyed_row_of, old_of};
ghost use Rattle.worker_table.specs.Table.Row.{change};

use crate::same::is_same;
use crate::{Key, Old, Step};
use erl_term::Term;
use rel_files::text::is_version;
use std::alloc::{AllocError, Global};

pub(crate) enum KeyedRow<B> {
    // In the state of the key, at its input: the next state and the reply.
    On(Key<B>, u32, u32),
    // At the input of the key: what is added to the state.
    Add(Key<B>, u32),
    // In the state of the key, at its input: the last reply.
    Stop(Key<B>, u32),
    // From this version with this extra term: the new states of old ones.
    Change(Old, Term, Vec<(u32, u32)>),
}

// Let go by one call: a derived drop would stand field by field at each exit of a caller.
impl<B> Drop for KeyedRow<B> {
    fn drop(self) {
        match self {
            KeyedRow::Change(_old, _extra, _states) => {}
            KeyedRow::On(_, _, _) | KeyedRow::Add(_, _) | KeyedRow::Stop(_, _) => {}
        }
    }
}

impl<B> KeyedRow<B> {
    // What the row makes of a call that fits it.
    pub(crate) fn made_of(&self, state: u32) -> Step
        ensures { result ≡ call_of state (keyed_row_of self.now) }
    {
        match self {
            KeyedRow::On(_, next, reply) => Step::Next(*next, *reply),
            KeyedRow::Add(_, summand) => {
                let sum = state.wrapping_add(*summand);
                Step::Next(sum, sum)
            }
            KeyedRow::Stop(_, reply) => Step::Ends(*reply),
            KeyedRow::Change(_, _, _) => Step::Crashes,
        }
    }

    // The new state by the row, if the change of code fits it.
    pub(crate) fn change(&self, old: &Old, extra: &Term, state: u32) -> Option<u32>
        ensures { result
            ≡ (if fits_change (old_of old.now) (value_of extra.now) (keyed_row_of self.now)
            then Some (moved_by state (keyed_row_of self.now)) else None) }
    {
        match self {
            KeyedRow::Change(from, with, moves) => {
                if from.is_same(old) && is_same(with, extra) {
                    Some(moved(moves.as_slice(), state))
                } else {
                    None
                }
            }
            _ => None,
        }
    }

    // Whether its version is one, where it has one.
    pub(crate) fn has_version(&self) -> bool
        ensures { result ≡ row_has_version (keyed_row_of self.now) }
    {
        match self {
            KeyedRow::Change(Old::Up(vsn), _, _) => is_version(vsn.as_str()),
            KeyedRow::Change(Old::Down(vsn), _, _) => is_version(vsn.as_str()),
            _ => true,
        }
    }

    pub(crate) fn copy(&self, alloc: Global) -> Result<KeyedRow<B>, AllocError>
        ensures { IfOk result (λ row. keyed_row_of row ≡ keyed_row_of self.now) }
    {
        match self {
            KeyedRow::On(key, next, reply) => Ok(KeyedRow::On(*key, *next, *reply)),
            KeyedRow::Add(key, summand) => Ok(KeyedRow::Add(*key, *summand)),
            KeyedRow::Stop(key, reply) => Ok(KeyedRow::Stop(*key, *reply)),
            KeyedRow::Change(old, extra, moves) => {
                copied_change(alloc, old, extra, moves.as_slice())
            }
        }
    }
}

fn copied_change<B>(
    alloc: Global,
    old: &Old,
    extra: &Term,
    moves: &[(u32, u32)],
) -> Result<KeyedRow<B>, AllocError>
    ensures { IfOk result (λ row.
        keyed_row_of row ≡ change (old_of old.now) (value_of extra.now) moves.now) }
{
    Ok(KeyedRow::Change(
        old.copy(alloc)?,
        extra.clone()?,
        Vec::from_slice(alloc, moves)?,
    ))
}

// The new state of a state, which stays where no pair names it.
fn moved(moves: &[(u32, u32)], state: u32) -> u32
    ensures { result ≡ moved moves.now state }
{
    for (from, to) in moves {
        if *from == state {
            return *to;
        }
    }
    state
}
