//! The relup of a release as a text, from the files of releases (OTP: systools:make_relup/3,4).
//!
//! [`make_relup_text`] reads the releases, takes the entries of appups by patterns, translates them over runtime systems, and
//! judges the instructions as `systools` does. Its text is that of a relup that is made so of what the files say, and is read back
//! as this relup; beside it stands all that `systools` warns of (clause `made`). An error says the first refusal (`refused`). A
//! [`Refusal`] has the file that it is about (`file`) and, of an appup whose term says none, the entry or the instruction that is
//! none (`place`). It is shown in one line.
//!
//! Only tested: that files are read where memory is there, and the words of a refusal. Trusted: the toolchain and what
//! `appup_match` trusts.
#![tactic(auto)]

mod error;
mod judgement;
mod making;
mod refusal;
mod scripts;
mod warnings;

pub use error::MakeError;
pub use judgement::FoundInstr;
pub use making::{MadeText, make_relup_text};
pub use refusal::Refusal;
