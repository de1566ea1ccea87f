//! The ends of a mailbox.
ghost use Rattle.std.specs.Prelude.{◌≡◌, ◌≢◌, []};
ghost use Rattle.crossbeam_channel.specs.Claims.{view, IsSeatAt};
ghost use Rattle.crossbeam_channel.specs.Ends.{sends_on, receives_on};

use crate::{Delivery, Hand, Note};
use crossbeam_channel::{Pass, RuledReceiver, RuledSender};

/// Adds notes to a mailbox.
#[derive(Drop)]
pub struct Sender {
    pub(crate) end: RuledSender<Note, Hand, Delivery>,
    pub(crate) hand: Pass<Note, Hand>,
    pub ghost sits: { IsSeatAt (sends_on end) hand },
    pub ghost adds: { (view hand).name ≢ [] },
}

/// Takes notes from a mailbox.
#[derive(Drop)]
pub struct Inbox {
    pub(crate) end: RuledReceiver<Note, Hand, Delivery>,
    pub(crate) hand: Pass<Note, Hand>,
    pub ghost sits: { IsSeatAt (receives_on end) hand },
    pub ghost reads: { (view hand).name ≡ [] },
}
