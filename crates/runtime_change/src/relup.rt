//! The relup between releases that may be for different runtime systems.
ghost use Rattle.std.specs.Prelude.{◌≡◌, ◌∷◌, [], IfOk, IfErr, Ok, map};
ghost use Rattle.relup_file.specs.Relup.{entry_of, relup_of};
ghost use Rattle.relup_row.specs.Release.{relup_release_of};
ghost use Rattle.runtime_change.specs.Runtime.{changes_runtime};
ghost use Rattle.runtime_change.specs.Settled.{settled};
ghost use Rattle.runtime_change.specs.Relup.{entry_between, entries_between, relup_over_runtimes, RefusedAs, way_entry};

use crate::runtime::changes_runtime;
use crate::script::renew_script;
use crate::settled::settled_release;
use relup_file::{Relup, RelupEntry};
use relup_instruction::Direction;
use relup_row::RelupRelease;
use relup_translate::{TranslateError, make_relup};
use std::alloc::Global;
use std::slice;

/// The relup of a release, as the translation makes it, where a way may lead to another runtime system, and a restart at the end of
/// each script may be asked for. An appup counts whatever version it is of.
pub fn make_relup_over_runtimes(
    alloc: Global,
    restart: bool,
    new: &RelupRelease,
    ups: &[RelupRelease],
    downs: &[RelupRelease],
) -> Result<Relup, TranslateError>
    ensures made { IfOk result (λ r. relup_over_runtimes restart (relup_release_of new.now)
        (map relup_release_of ups.now) (map relup_release_of downs.now) ≡ Ok (relup_of r)) }
    ensures refused { IfErr result (RefusedAs (relup_over_runtimes restart
        (relup_release_of new.now) (map relup_release_of ups.now)
        (map relup_release_of downs.now))) }
{
    let ups = entries(alloc, restart, Direction::Up, new, ups)?;
    let downs = entries(alloc, restart, Direction::Down, new, downs)?;
    Ok(Relup {
        vsn: new.vsn.clone()?,
        ups,
        downs,
    })
}

fn entries(
    alloc: Global,
    restart: bool,
    direction: Direction,
    new: &RelupRelease,
    others: &[RelupRelease],
) -> Result<Vec<RelupEntry>, TranslateError>
    ensures made { IfOk result (λ v. entries_between restart direction
        (relup_release_of new.now) (map relup_release_of others.now) ≡ Ok (map entry_of v.items)) }
    ensures refused { IfErr result (RefusedAs (entries_between restart direction
        (relup_release_of new.now) (map relup_release_of others.now))) }
{
    let mut entries = Vec::with_capacity(alloc, others.len())?;
    for other in others {
        entries.push(entry(alloc, restart, direction, new, other)?)?;
    }
    Ok(entries)
}

fn entry(
    alloc: Global,
    restart: bool,
    direction: Direction,
    new: &RelupRelease,
    other: &RelupRelease,
) -> Result<RelupEntry, TranslateError>
    ensures made { IfOk result (λ e. entry_between restart direction
        (relup_release_of new.now) (relup_release_of other.now) ≡ Ok (entry_of e)) }
    ensures refused { IfErr result (RefusedAs (entry_between restart direction
        (relup_release_of new.now) (relup_release_of other.now))) }
{
    let settled = settled_release(alloc, new, &other.erts)?;
    let mut entry = settled_entry(alloc, direction, &settled, other)?;
    let changes = changes_runtime(direction, new, other);
    renew_script(restart, direction, changes, &mut entry.script)?;
    Ok(entry)
}

// The entry between a release and another one, by the translation.
fn settled_entry(
    alloc: Global,
    direction: Direction,
    new: &RelupRelease,
    other: &RelupRelease,
) -> Result<RelupEntry, TranslateError>
    ensures made { IfOk result (λ e. way_entry direction
        (relup_release_of new.now) (relup_release_of other.now) ≡ Ok (entry_of e)) }
    ensures refused { IfErr result (RefusedAs (way_entry direction
        (relup_release_of new.now) (relup_release_of other.now))) }
{
    match direction {
        Direction::Up => {
            let mut relup = make_relup(alloc, new, slice::from_ref(other), &[])?;
            Ok(relup.ups.remove(0))
        }
        Direction::Down => {
            let mut relup = make_relup(alloc, new, &[], slice::from_ref(other))?;
            Ok(relup.downs.remove(0))
        }
    }
}
