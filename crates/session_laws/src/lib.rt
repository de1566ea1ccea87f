//! Laws of whole sessions: what follows from the definitions by which `rel_session` says what a session does (`IsSession`), whatever
//! body keeps them.
//!
//! [`sessions`]: no session, and no number of sessions and crashes, loses an acknowledged event, or adds one that nobody asked for,
//! from what `session` ensures alone (specs/KeptEvents). [`events`]: the same of each reply, and of runs from any place; what is in
//! doubt is reported as a failure, and nothing is in doubt where nothing fails (specs/RunLaws). [`answers`]: an input has one answer,
//! the list of a disk decides what is answered, and a text determines the events of its session, also where it broke off
//! (specs/AnswerLaws).
//!
//! Nothing here runs: each function is a law, with its premises, and is proved of the definitions of `rel_session`.
#![tactic(auto)]

pub mod answers;
pub mod events;
pub mod sessions;
