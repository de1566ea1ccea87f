//! A node that has booted, and what it starts right after a boot.
//!
//! [`boot`] takes a disk, and answers a [`Node`]: the releases as a boot makes them (`booted`, `recovers`), and in its table exactly
//! the processes of the release that runs, each begun once, with exactly its modules (`started`: `HasJustStarted`). No later boot
//! starts that release as a one-shot (`once`). [`start_node`] starts the node of a handler that was just made.
//! [`start_running`] is the only way in which the release of a node is started: the permanent one, or one that a boot has just taken
//! as a one-shot, by the list of a handler, in a table in which nothing has begun (`new`). Whoever calls it owes that a crash leaves
//! no one-shot from then on (`once`). So a release that was installed with a restart is started for it by one boot at most, whatever
//! stops come, also in that boot. The law `a_release_that_passed_the_tests_starts` says that a release that passed the tests of
//! `rel_check` has no fault for which its applications would not start.
//!
//! [`boot`] waits for slots, which nobody else has. Only tested: that it returns, and succeeds where memory is there. To be
//! read in `begin_processes`: that no further table is made. Trusted: the toolchain, with what the crates below trust.
#![tactic(auto)]

pub mod laws;
mod node;
mod start;

pub use node::{Node, boot, start_node};
pub use start::{Started, start_running};
