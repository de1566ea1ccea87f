//! The members of a started application: what stands for each, and how they begin, end, are looked at, and change (OTP:
//! supervisor).
//!
//! A list of [`Member`]s has an application's supervisors and their children, in the order of the walk (`app_members`): each
//! supervisor before its children, a child with those below it before its next sibling. What stands for a member is a process with
//! its id, its module and its `Pid`, or a supervisor, or nothing ([`MemberState`]).
//! [`prepare_all`] takes all memory that members need, and [`begin_all`] begins their processes one after another, each in the
//! lowest slot in which one can (specs/Begins, Preparations). [`end_all`] gives processes up, the last first, but for those that
//! were given up before (specs/Ends). [`member_stays`] looks at what stands for a member and leaves it as it is (specs/Looks).
//! [`terminate`] ends a child of a supervisor with those below it, and [`delete`] takes it away, unless it is up (specs/Places).
//! [`changed_members`] gives the supervisors of a module other children (specs/Changes). What begins, ends or looks at a process
//! waits for its slot, and takes no memory.
//!
//! The functions of `laws` say where the processes of a new table stand, and what stands there once they began; and that a change
//! of children loses no process, and none stands twice.
//!
//! Only tested: that members begin, are copied and change where memory is there. Trusted: the toolchain alone.
#![tactic(auto)]

mod begins;
mod changes;
mod children;
mod copies;
mod ends;
mod finds;
pub mod laws;
mod looks;
mod member;
mod places;

pub use begins::{NewProcess, Preparation, begin_all, name_of, prepare_all, process_count};
pub use changes::changed_members;
pub use children::{delete, terminate};
pub use copies::copy_members;
pub use ends::{end_all, end_member};
pub use finds::{
    add_using, module_among, note_users, process_with, supervises_in, supervisor_count,
};
pub use looks::{Kept, Stay, member_stays};
pub use member::{Member, MemberState, StartedProcess};
pub use mod_table::{Child, Super};
pub use places::{put_in, range_of_child, take_out, with_below};
