//! Blocks of modules that are updated and loaded together: the instructions that a script has for one, and their order (OTP:
//! appup(4), systools:make_relup/3; the order is this project's own).
//!
//! [`push_block`] writes the instructions of the definition `block`. They go by two orders of the block's items, which two
//! rules of choice give (specs/Order). [`push_instr`] writes a single one.
//!
//! The functions of `laws` say of the definition that an order has each item once, and follows dependencies that have no cycle;
//! that going up dependents are suspended first, and loaded and changed last, and going down the other way round: each item is
//! loaded once, and each state changed once; that the modules of the updates are suspended, while modules are loaded and states
//! are changed, and resumed the last first; that going up all is loaded before states are changed, as for an upgrade; and that
//! going down states are changed, as for a downgrade, before their modules are loaded, but for static updates.
//!
//! Only tested: that a block is written where memory is there. Trusted: the toolchain alone.
#![tactic(auto)]

mod block;
pub mod laws;
mod order;

pub use block::{push_block, push_instr};
pub use order::BlockItem;
