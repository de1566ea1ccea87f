//! The rule of the table, and what the seat that makes a step knows by it.
ghost use Rattle.std.specs.Prelude.{List, []};
ghost use Rattle.proc_history.specs.Events.{HistoryEntry};
ghost use Rattle.proc_table.specs.Agrees.{slots};
ghost use Rattle.proc_table.specs.Places.{ReachedBySlot};
ghost use Rattle.proc_table.specs.Steps.{took_or_missed, gave, laid_down, lifted, learnt};
ghost use Rattle.proc_table.specs.Views.{handler_view, one_more, new_pass, joined, gone};

use crate::View;
use atomic_table::{Join, Play, Split, TableRule};
use proc_history::Value;
use std::marker::{Brand, PhantomData};

/// The rule: some run of the kinds of step leads from the start to what the table is, in the order of the slots.
pub struct Agreement;

impl TableRule<Value, View, ()> for Agreement {
    ghost holds = { λ _. ReachedBySlot };

    ghost first = { λ _. handler_view slots };
}

pub(crate) struct Take;

impl Play<Value, View> for Take {
    ghost then = { took_or_missed };
}

// What a step adds to the history, picked where it is called.
pub(crate) trait Adds {
    ghost added: { List HistoryEntry };
}

impl Adds for Brand {
    ghost added = { [] };
}

pub(crate) struct Give<E: Adds> {
    of: PhantomData<E>,
}

impl<E: Adds> Play<Value, View> for Give<E> {
    ghost then = { gave E.added };
}

pub(crate) struct Lay;

impl Play<Value, View> for Lay {
    ghost then = { laid_down };
}

pub(crate) struct Lift;

impl Play<Value, View> for Lift {
    ghost then = { lifted };
}

pub(crate) struct Learn;

impl Play<Value, View> for Learn {
    ghost then = { learnt };
}

pub(crate) struct Cut;

impl Split<View> for Cut {
    ghost left = { one_more };

    ghost right = { new_pass };
}

pub(crate) struct Glue;

impl Join<View> for Glue {
    ghost both = { joined };

    ghost spent = { gone };
}
