//! The script that leads from one release to another.
ghost use Rattle.std.specs.Prelude.{◌≡◌, map};
ghost use Rattle.std.specs.Option.{option_map};
ghost use Rattle.std.specs.Result.{result_ok};
ghost use Rattle.relup_file.specs.Relup.{entry_of, relup_of};
ghost use Rattle.relup_file.specs.Search.{found_of, entry_for, of_entry, upgrade, downgrade, script_between};

use crate::{Relup, RelupEntry};
use erl_term::Term;
use relup_instruction::{Direction, Instr};
use std::fmt::{self, Display, Formatter};

/// No relup has a script between two releases. It is shown by its name.
#[derive(Clone, Copy, Debug)]
pub struct NoMatchingRelup;

impl Display for NoMatchingRelup {
    ghost use Rattle.std.specs.Prelude.{Some, codes};

    ghost output = { λ _. Some (codes "NoMatchingRelup") };

    fn fmt<W: fmt::Write>(&self, f: &mut Formatter<W>) -> fmt::Result {
        f.write_str("NoMatchingRelup")
    }
}

impl std::error::Error for NoMatchingRelup {}

/// A script, with the version and the description that its entry has.
#[derive(Clone, Copy)]
pub struct Found<'a> {
    pub other: &'a str,
    pub descr: &'a Term,
    pub script: &'a [Instr],
    pub direction: Direction,
}

/// The script from the running release to another one: the upgrade from the running version in the target's relup, or else
/// the downgrade to the target in the running release's relup. Of several entries of one version the first counts.
pub fn find_script<'a>(
    target: &str,
    target_relup: Option<&'a Relup>,
    running: &str,
    running_relup: Option<&'a Relup>,
) -> Result<Found<'a>, NoMatchingRelup>
    ensures { option_map found_of (result_ok result)
        ≡ script_between target.now (option_map (λ r. relup_of r.now) target_relup.entry)
        running.now (option_map (λ r. relup_of r.now) running_relup.entry) }
{
    if let Some(found) = upgrade(running, target_relup) {
        return Ok(found);
    }
    match downgrade(target, running_relup) {
        Some(found) => Ok(found),
        None => Err(NoMatchingRelup),
    }
}

fn upgrade<'a>(vsn: &str, relup: Option<&'a Relup>) -> Option<Found<'a>>
    ensures { option_map found_of result
        ≡ upgrade vsn.now (option_map (λ r. relup_of r.now) relup.entry) }
{
    let relup = relup?;
    let entry = entry_for(vsn, &relup.ups)?;
    Some(of_entry(Direction::Up, entry))
}

fn downgrade<'a>(vsn: &str, relup: Option<&'a Relup>) -> Option<Found<'a>>
    ensures { option_map found_of result
        ≡ downgrade vsn.now (option_map (λ r. relup_of r.now) relup.entry) }
{
    let relup = relup?;
    let entry = entry_for(vsn, &relup.downs)?;
    Some(of_entry(Direction::Down, entry))
}

fn of_entry(direction: Direction, entry: &RelupEntry) -> Found<'_>
    ensures { found_of result ≡ of_entry direction (entry_of entry.now) }
{
    Found {
        other: entry.vsn.as_str(),
        descr: &entry.descr,
        script: &entry.script,
        direction,
    }
}

// The first entry of a version.
fn entry_for<'a>(vsn: &str, entries: &'a [RelupEntry]) -> Option<&'a RelupEntry>
    ensures { option_map (λ e. entry_of e.now) result
        ≡ entry_for vsn.now (map entry_of entries.now) }
{
    for entry in entries {
        if entry.vsn.as_str() == vsn {
            return Some(entry);
        }
    }
    None
}
