//! The instructions that lead from one version of an application to another.
ghost use Rattle.std.specs.Prelude.{◌≡◌, map};
ghost use Rattle.std.specs.Result.{result_map_both};
ghost use Rattle.appup_file.specs.Instruction.{row_of, entry_of, appup_of};
ghost use Rattle.appup_file.specs.Search.{entries_of, entry_for};

use crate::{Appup, AppupEntry, AppupInstr, OtherVersion};
use relup_instruction::Direction;
use std::fmt::{self, Display, Formatter};

/// Why an appup has no instructions for a version. It is shown by its name.
#[derive(Clone, Copy, Debug)]
pub enum EntryFault {
    /// The appup has no entry of the version, and none of a regular expression.
    NoEntry,
    /// The appup has an entry of a regular expression, and none of the version before it.
    RegexVersion,
}

impl Display for EntryFault {
    ghost use Rattle.std.specs.Prelude.{Some};
    ghost use Rattle.appup_file.specs.Fault.{entry_fault_text};

    ghost output = { λ f. Some (entry_fault_text f) };

    fn fmt<W: fmt::Write>(&self, f: &mut Formatter<W>) -> fmt::Result {
        match self {
            EntryFault::NoEntry => f.write_str("NoEntry"),
            EntryFault::RegexVersion => f.write_str("RegexVersion"),
        }
    }
}

impl std::error::Error for EntryFault {}

impl Appup {
    /// The instructions for an upgrade from a version, or for a downgrade to it. Of several entries of one version the first
    /// counts.
    pub fn entry_for(&self, vsn: &str, direction: Direction) -> Result<&[AppupInstr], EntryFault>
        ensures { result_map_both (λ instrs. row_of instrs.now) (λ f. f) result
            ≡ entry_for vsn.now (entries_of direction (appup_of self.now)) }
    {
        match direction {
            Direction::Up => entry_for(vsn, &self.ups),
            Direction::Down => entry_for(vsn, &self.downs),
        }
    }
}

fn entry_for<'a>(vsn: &str, entries: &'a [AppupEntry]) -> Result<&'a [AppupInstr], EntryFault>
    ensures { result_map_both (λ instrs. row_of instrs.now) (λ f. f) result
        ≡ entry_for vsn.now (map entry_of entries.now) }
{
    for entry in entries {
        match &entry.vsn {
            OtherVersion::Pattern(_) => return Err(EntryFault::RegexVersion),
            OtherVersion::Text(other) => {
                if other.as_str() == vsn {
                    return Ok(&entry.instrs);
                }
            }
        }
    }
    Err(EntryFault::NoEntry)
}
