//! Appups of plain versions: for each version that is asked, the entry that is for it, whether that entry has the version itself
//! or a pattern.
//!
//! [`plain_entries`] gives these entries, each under the version that is asked, in the order asked; a version that no entry is
//! for has none (clause `made`). A refusal is that of the first version whose search comes to a pattern with a fault (`refused`).
//!
//! The functions of `laws` say that `entry_for` finds in such entries what `entry_matching` finds in those of the appup, for each
//! version that is asked, and nothing where that finds nothing.
//!
//! Only tested: that entries are made where memory is there. Trusted: the toolchain and what `appup_match` trusts.
#![tactic(auto)]

mod copies;
mod fault;
pub mod laws;
mod plain;

pub use copies::copy_appup_instr;
pub use fault::PlainError;
pub use plain::plain_entries;
