//! The first instruction of a relup's scripts that `systools` refuses.
ghost use Rattle.std.specs.Prelude.{◌≡◌, IfOk, map, string_bytes};
ghost use Rattle.relup_lint.specs.Memory.{finding_of};
ghost use Rattle.relup_row.specs.Release.{relup_release_of};
ghost use Rattle.release_relup.specs.Scripts.{script_between, scripts};
ghost use Rattle.release_relup.specs.Found.{Judges, JudgesAll};

use crate::scripts::{all_coming, push_apps, target_apps};
use relup_instruction::Direction;
use relup_lint::{Finding, first_finding, push_entry};
use relup_row::{RelupRelease, Way};
use std::alloc::{AllocError, Global};

/// An instruction that `systools` refuses.
#[derive(Drop)]
pub struct FoundInstr {
    /// The application whose appup has it; the empty text where it is one of the applications that come.
    pub app: String,
    pub direction: Direction,
    /// The version of the release that the way is from, or that it leads to.
    pub release: String,
    /// Its place in the entry, from 1.
    pub number: usize,
    /// What is refused, and what to do.
    pub what: String,
}

// What is reported of a finding.
fn reported(
    alloc: Global,
    direction: Direction,
    other: &RelupRelease,
    finding: Finding<'_>,
) -> Result<FoundInstr, AllocError>
    ensures app { IfOk result (λ x. string_bytes x.app ≡ (finding_of finding.entry).app) }
    ensures number { IfOk result (λ x. x.number ≡ (finding_of finding.entry).number) }
{
    let refusal = finding.refusal;
    Ok(FoundInstr {
        app: String::from_str(alloc, finding.app)?,
        direction,
        release: other.vsn.clone()?,
        number: finding.number,
        what: format!(in alloc; "{refusal}")?,
    })
}

// The first instruction that is refused between a release and another one.
fn found_between<'a>(
    alloc: Global,
    direction: Direction,
    new: &'a RelupRelease,
    other: &'a RelupRelease,
) -> Result<Option<FoundInstr>, AllocError>
    ensures { IfOk result (Judges
        (script_between direction (relup_release_of new.now) (relup_release_of other.now))) }
{
    let way = Way::between(direction, new, other);
    let instrs = all_coming(alloc, way)?;
    let target = target_apps(alloc, way.target)?;
    let mut script = Vec::new(alloc);
    push_entry("", &instrs, &mut script)?;
    push_apps(direction, other, &new.apps, &mut script)?;
    match first_finding(alloc, &script, &target)? {
        Some(finding) => Ok(Some(reported(alloc, direction, other, finding)?)),
        None => Ok(None),
    }
}

fn found_in(
    alloc: Global,
    direction: Direction,
    new: &RelupRelease,
    others: &[RelupRelease],
) -> Result<Option<FoundInstr>, AllocError>
    ensures { IfOk result (JudgesAll (map (script_between direction (relup_release_of new.now))
        (map relup_release_of others.now))) }
{
    for other in others {
        if let Some(found) = found_between(alloc, direction, new, other)? {
            return Ok(Some(found));
        }
    }
    Ok(None)
}

/// The first instruction that `systools` refuses of a relup's scripts, the upgrades before the downgrades.
pub(crate) fn first_found(
    alloc: Global,
    new: &RelupRelease,
    ups: &[RelupRelease],
    downs: &[RelupRelease],
) -> Result<Option<FoundInstr>, AllocError>
    ensures { IfOk result (JudgesAll (scripts (relup_release_of new.now)
        (map relup_release_of ups.now) (map relup_release_of downs.now))) }
{
    match found_in(alloc, Direction::Up, new, ups)? {
        Some(found) => Ok(Some(found)),
        None => found_in(alloc, Direction::Down, new, downs),
    }
}
