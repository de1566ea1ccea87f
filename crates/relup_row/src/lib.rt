//! What a row of an appup's instructions becomes in a script, on the way from one release to another (OTP: appup(4),
//! systools:make_relup/3).
//!
//! A [`Way`] is between two releases. [`push_row`] writes what a row becomes after the point of no return, cut into blocks
//! and single instructions; [`push_added`] and [`push_removed`] what an application does that comes or goes.
//! [`push_mentions`] and [`push_app_modules`] note the modules that are loaded, [`push_fetches`] writes the
//! `load_object_code` for them, and [`push_written_fetches`] those that the appup has itself. [`row_asks_restart`] reports
//! whether a `restart_emulator` has to be the last instruction. Each equals its definition in specs/Script or specs/Fetches.
//! A module is found among n of an application in log n comparisons ([`ModuleNames`]).
//!
//! The functions of `laws` say that the modules that are mentioned are fetched, each once for it, and no others, from the target
//! and in its versions; and that a row is cut into blocks, each as long as can be, and single instructions.
//!
//! Only tested: that they are written where memory is there. Trusted: the toolchain alone.
#![tactic(auto)]

mod calls;
mod copies;
mod fetches;
pub mod laws;
mod modules;
mod release;
mod rows;
mod single;

pub use copies::copy_instr;
pub use fetches::{Mention, push_fetches};
pub use modules::ModuleNames;
pub use release::{RelupApp, RelupRelease, Way};
pub use rows::{push_app_modules, push_mentions, push_row, push_written_fetches, row_asks_restart};
pub use single::{push_added, push_removed};
