//! Mailboxes: how one is made, and what its ends do.
ghost use Rattle.std.specs.Prelude.{◌≡◌, [], ◌∷◌, MatchOption, MatchResult, IfOk};
ghost use Rattle.proc_workers.specs.Ends.{mailbox_of, read_by, capacity_of, sender_hand, inbox_hand};
ghost use Rattle.proc_workers.specs.Hands.{first_hand, next_hand, with_end_made, with_note_sent, with_note_taken, NothingWaits};

use crate::hand::{NoteAdded, NoteTaken, SenderMade};
use crate::{Delivery, Hand, Inbox, Note, Sender};
use crossbeam_channel::bounded_with;
use std::alloc::{AllocError, Global};
use std::sync::Wait;
use thiserror::Error;

/// How many notes wait in a mailbox at most.
const CAPACITY: usize = 64;

/// The inbox of a mailbox is gone.
#[derive(Clone, Copy, Debug, PartialEq, Eq, Error)]
#[error("Closed")]
pub struct Closed;

/// An empty mailbox that holds at most 64 notes, with its first sender.
pub fn mailbox(alloc: Global) -> Result<(Sender, Inbox), AllocError>
    ensures one { IfOk result (λ ends. read_by ends.1 ≡ mailbox_of ends.0) }
    ensures capacity { IfOk result (λ ends. capacity_of ends.0 ≡ 64) }
    ensures ends { IfOk result (λ ends. (inbox_hand ends.1 ≡ with_end_made first_hand)
        × (sender_hand ends.0 ≡ next_hand first_hand)) }
    ensures empty { IfOk result (λ ends.
        NothingWaits (inbox_hand ends.1 ∷ sender_hand ends.0 ∷ [])) }
{
    let (sending, receiving, mut hand) = bounded_with::<Note, Hand, Delivery, Global>(
        alloc, CAPACITY,
    )?;
    let adding = sending.another::<SenderMade>(&mut hand);
    let sender = Sender {
        end: sending,
        hand: adding,
    };
    let inbox = Inbox {
        end: receiving,
        hand,
    };
    Ok((sender, inbox))
}

impl Sender {
    /// Adds the note at the back, once, as soon as fewer than 64 wait. Where the inbox is gone, it is handed back and nothing
    /// was added. No end is made.
    pub fn send<R: Wait>(&mut self, rt: &R, note: Note) -> Result<(), (Note, Closed)>
        ensures mailbox { mailbox_of self.new ≡ mailbox_of self.old }
        ensures added { MatchResult result
            (λ _. sender_hand self.new ≡ with_note_sent note (sender_hand self.old))
            (λ e. (e.0 ≡ note) × (sender_hand self.new ≡ sender_hand self.old)) }
    {
        match self.end.send_as::<NoteAdded, R>(rt, &mut self.hand, note) {
            Ok(()) => Ok(()),
            Err(refused) => Err((refused.into_inner(), Closed)),
        }
    }

    /// Another sender of the mailbox, for another thread. It has sent nothing. It shares the mailbox's memory, so nothing of the
    /// allocator is taken.
    pub fn second(&mut self, _alloc: Global) -> Result<Sender, AllocError>
        ensures mailbox { mailbox_of self.new ≡ mailbox_of self.old }
        ensures second { MatchResult result
            (λ s. (mailbox_of s ≡ mailbox_of self.old)
            × (sender_hand s ≡ next_hand (sender_hand self.old))
            × (sender_hand self.new ≡ with_end_made (sender_hand self.old)))
            (λ _. sender_hand self.new ≡ sender_hand self.old) }
    {
        let end = self.end.try_clone()?;
        let hand = self.end.another::<SenderMade>(&mut self.hand);
        Ok(Sender { end, hand })
    }
}

impl Inbox {
    /// Takes the note at the front, once there is one; none where no note waits and all senders are gone.
    pub fn take<R: Wait>(&mut self, rt: &R) -> Option<Note>
        ensures mailbox { read_by self.new ≡ read_by self.old }
        ensures taken { MatchOption result (inbox_hand self.new ≡ inbox_hand self.old)
            (λ note. inbox_hand self.new ≡ with_note_taken note (inbox_hand self.old)) }
    {
        self.end.recv_as::<NoteTaken, R>(rt, &mut self.hand).ok()
    }
}
