//! The entries for the versions that are asked.
ghost use Rattle.std.specs.Prelude.{◌≡◌, ◌∷◌, ◌++◌, [], IfOk, IfErr, OnOk, map, string_bytes};
ghost use Rattle.appup_file.specs.Instruction.{entry_of, appup_of, row_of};
ghost use Rattle.appup_file.specs.Search.{entries_of};
ghost use Rattle.appup_plain.specs.Plain.{IsPlain, Refuses, plain_entry};

use crate::PlainError;
use crate::copies::copy_row;
use appup_file::{Appup, AppupEntry, AppupInstr, OtherVersion};
use appup_match::{MatchError, entry_matching};
use relup_instruction::Direction;
use std::alloc::{AllocError, Global};

/// The entry for each version that is asked and that an entry of the appup is for, in the order asked.
pub fn plain_entries(
    alloc: Global,
    appup: &Appup,
    direction: Direction,
    asked: &[String],
) -> Result<Vec<AppupEntry>, PlainError>
    ensures made { IfOk result (λ v. IsPlain (entries_of direction (appup_of appup.now))
        (map string_bytes asked.now) (map entry_of v.items)) }
    ensures refused { IfErr result (Refuses (entries_of direction (appup_of appup.now))
        (map string_bytes asked.now)) }
{
    let mut plain = Vec::new(alloc);
    for vsn in asked {
        match entry_matching(alloc, appup, vsn.as_str(), direction) {
            Ok(row) => push_plain(alloc, vsn, row, &mut plain)?,
            Err(MatchError::NoEntry) => {}
            Err(MatchError::BadPattern(place, fault)) => {
                return Err(PlainError::BadPattern(place, fault));
            }
            Err(MatchError::NoMemory) => return Err(PlainError::NoMemory),
        }
    }
    Ok(plain)
}

// Adds the entry of a version.
fn push_plain(
    alloc: Global,
    vsn: &String,
    row: &[AppupInstr],
    plain: &mut Vec<AppupEntry>,
) -> Result<(), AllocError>
    ensures { OnOk result (map entry_of plain.new.items ≡ map entry_of plain.old.items
        ++ (plain_entry (string_bytes vsn.now) (row_of row.now) ∷ [])) }
{
    plain.push(plain_entry(alloc, vsn, row)?)?;
    Ok(())
}

fn plain_entry(alloc: Global, vsn: &String, row: &[AppupInstr]) -> Result<AppupEntry, AllocError>
    ensures { IfOk result (λ e. entry_of e ≡ plain_entry (string_bytes vsn.now) (row_of row.now)) }
{
    Ok(AppupEntry {
        vsn: OtherVersion::Text(vsn.clone()?),
        instrs: copy_row(alloc, row)?,
    })
}
