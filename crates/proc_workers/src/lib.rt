//! Workers: threads that call a process each, and take the calls from a mailbox.
//!
//! [`mailbox`] makes an empty mailbox for 64 notes (`empty`), with one [`Inbox`] and any number of [`Sender`]s. What an end knows is
//! its [`Hand`] (specs/Hands). `Sender::send` adds its note at the back, once, or hands it back where the inbox is gone (`added`).
//! The mailbox keeps [`Delivery`]: the notes stand in one order, in which those of each end are what it added, and of which the
//! inbox took all but those that wait. So no note is lost, and none comes twice (`laws`).
//! [`work`] calls one process for each [`Job`] that it takes, until it is stopped; jobs that come while it is suspended are kept
//! (specs/Notes, specs/Work). The jobs that it took are those of its answers and then those that are left, each once (`jobs`). Each
//! answer goes by the history up to its moment (`calls`). Where memory is refused nothing is lost.
//! [`flood`] calls a process so often with one input, for jobs that two threads send, and counts the outcomes (specs/Floods).
//! `send`, `Inbox::take`, [`work`] and [`flood`] wait: their clauses say what is so if they return.
//! Only tested: that a note comes, that an end that is gone is noticed, that workers run beside each other, and that a worker calls
//! its gate. Trusted: the toolchain, with `crossbeam_channel` and `thiserror`.
#![tactic(auto)]

mod desk;
mod ends;
mod floods;
mod gate;
mod hand;
pub mod laws;
mod mail;
mod note;
mod worker;

pub use ends::{Inbox, Sender};
pub use floods::{FloodCounts, flood};
pub use gate::{Gate, NoGate};
pub use hand::{Delivery, Hand};
pub use mail::{Closed, mailbox};
pub use note::{Answer, Job, Note};
pub use worker::{EndCause, Ended, work};
