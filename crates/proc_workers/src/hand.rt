//! The rule of a mailbox, and what the end that makes a step knows by it.
ghost use Rattle.std.specs.Prelude.{◌≡◌, ⊤};
ghost use Rattle.proc_workers.specs.Hands.{first_hand, next_hand, with_end_made, with_note_sent, with_note_taken, Delivers};

use crate::Note;
use crossbeam_channel::protocol::{Lesson, Outcome, Protocol, Split};
use std::collections::LinkedList;

/// What an end of a mailbox knows. No value of it is made.
pub struct Hand {
    /// Which end it is: its number among those that its maker made, from 0 on, and then the maker's name. That of the inbox,
    /// which no end made, is empty.
    pub name: LinkedList<u64>,
    /// How many ends it made.
    pub made: u64,
    /// The notes that it added, in order.
    pub sent: LinkedList<Note>,
    /// The notes that it took, in order.
    pub taken: LinkedList<Note>,
}

/// The rule: the notes stand in one order, and each end knows its part of it and the ends that it made.
pub struct Delivery;

impl Protocol<Note, Hand> for Delivery {
    ghost holds = { Delivers };

    ghost first = { first_hand };
}

// A note was added.
pub(crate) struct NoteAdded;

impl Outcome<Note, Hand> for NoteAdded {
    ghost then = { λ v note w. w ≡ with_note_sent note v };
}

impl Lesson<Note, Hand> for NoteAdded {
    ghost fact = { λ v waiting. ⊤ };
}

// A note was taken.
pub(crate) struct NoteTaken;

impl Outcome<Note, Hand> for NoteTaken {
    ghost then = { λ v note w. w ≡ with_note_taken note v };
}

impl Lesson<Note, Hand> for NoteTaken {
    ghost fact = { λ v waiting. ⊤ };
}

// A further sender.
pub(crate) struct SenderMade;

impl Split<Hand> for SenderMade {
    ghost left = { with_end_made };

    ghost right = { next_hand };
}
