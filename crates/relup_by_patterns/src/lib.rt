//! Relups from appups whose versions may be regular expressions (OTP: systools:make_relup/3, appup(4)).
//!
//! [`plain_release`] puts in the place of each appup of a release one of plain versions: with the entries that are for the
//! versions which other releases have of its application (clause `made`). A refusal is the first pattern with a fault that a
//! search comes to (`refused`): of the applications in the release's order, of upgrades before downgrades, and of the versions in
//! the order of the other releases. [`make_relup_by_patterns`] then makes the relup by `make_relup`: it is the translation of the
//! plain release, and each refusal is such a pattern or the translation's.
//!
//! The functions of `laws` say that the translation of a plain release never ends at a regular expression, that each version which
//! another release has of an application is asked, and that a plain release has names and versions where the release has.
//!
//! Only tested: that a relup is made where memory is there. Trusted: the toolchain and what `appup_match` trusts.
#![tactic(auto)]

mod appups;
mod error;
pub mod laws;
mod release;
mod relup;
mod versions;

pub use error::{BadPattern, ByPatternsError, PatternError};
pub use release::plain_release;
pub use relup::make_relup_by_patterns;
