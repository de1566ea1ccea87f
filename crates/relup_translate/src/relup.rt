//! The relup between releases.
ghost use Rattle.std.specs.Prelude.{◌≡◌, IfOk, IfErr, Ok, map};
ghost use Rattle.relup_file.specs.Relup.{entry_of, relup_of};
ghost use Rattle.relup_row.specs.Release.{relup_release_of};
ghost use Rattle.relup_translate.specs.Translation.{entry, relup_between, translation, Refuses};

use crate::TranslateError;
use crate::refusals::fault_between;
use crate::script::way_script;
use erl_term::Term;
use relup_file::{Relup, RelupEntry};
use relup_instruction::Direction;
use relup_row::{RelupRelease, Way};
use std::alloc::{AllocError, Global};

/// The relup of a release: the scripts up to it from some releases, and down from it to others, in the order given. The
/// appups are those of the release itself, in both directions.
pub fn make_relup(
    alloc: Global,
    new: &RelupRelease,
    ups: &[RelupRelease],
    downs: &[RelupRelease],
) -> Result<Relup, TranslateError>
    // A relup is the translation.
    ensures made { IfOk result (λ r. translation (relup_release_of new.now)
        (map relup_release_of ups.now) (map relup_release_of downs.now) ≡ Ok (relup_of r)) }

    // A refusal is its first fault. Out of memory alone can come in place of either.
    ensures refused { IfErr result (Refuses (translation (relup_release_of new.now)
        (map relup_release_of ups.now) (map relup_release_of downs.now))) }
{
    match fault_between(new, ups, downs) {
        Some(fault) => Err(fault.error(alloc)),
        None => Ok(relup_between(alloc, new, ups, downs)?),
    }
}

fn relup_between(
    alloc: Global,
    new: &RelupRelease,
    ups: &[RelupRelease],
    downs: &[RelupRelease],
) -> Result<Relup, AllocError>
    ensures { IfOk result (λ r. relup_of r ≡ relup_between (relup_release_of new.now)
        (map relup_release_of ups.now) (map relup_release_of downs.now)) }
{
    Ok(Relup {
        vsn: new.vsn.clone()?,
        ups: entries(alloc, Direction::Up, new, ups)?,
        downs: entries(alloc, Direction::Down, new, downs)?,
    })
}

fn entries(
    alloc: Global,
    direction: Direction,
    new: &RelupRelease,
    others: &[RelupRelease],
) -> Result<Vec<RelupEntry>, AllocError>
    ensures { IfOk result (λ v. map entry_of v.items
        ≡ map (entry direction (relup_release_of new.now)) (map relup_release_of others.now)) }
{
    let mut entries = Vec::with_capacity(alloc, others.len())?;
    for other in others {
        entries.push(entry(alloc, direction, new, other)?)?;
    }
    Ok(entries)
}

fn entry(
    alloc: Global,
    direction: Direction,
    new: &RelupRelease,
    other: &RelupRelease,
) -> Result<RelupEntry, AllocError>
    ensures { IfOk result (λ e. entry_of e
        ≡ entry direction (relup_release_of new.now) (relup_release_of other.now)) }
{
    Ok(RelupEntry {
        vsn: other.vsn.clone()?,
        descr: Term::List(Vec::new(alloc)),
        script: way_script(alloc, Way::between(direction, new, other))?,
    })
}
