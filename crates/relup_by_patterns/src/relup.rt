//! The relup of a release, by patterns.
ghost use Rattle.std.specs.Prelude.{◌≡◌, IfOk, IfErr, map};
ghost use Rattle.relup_file.specs.Relup.{relup_of};
ghost use Rattle.relup_row.specs.Release.{relup_release_of};
ghost use Rattle.relup_by_patterns.specs.Relup.{IsMadeByPatterns, IsRefusal};

use crate::{ByPatternsError, plain_release};
use relup_file::Relup;
use relup_row::RelupRelease;
use relup_translate::make_relup;
use std::alloc::Global;

/// The relup of a release, as `make_relup` makes it of the release with plain appups. A bad pattern is refused before any fault
/// that the translation has, whichever application it is of.
pub fn make_relup_by_patterns(
    alloc: Global,
    new: &RelupRelease,
    ups: &[RelupRelease],
    downs: &[RelupRelease],
) -> Result<Relup, ByPatternsError>
    ensures made { IfOk result (λ r. IsMadeByPatterns (relup_release_of new.now)
        (map relup_release_of ups.now) (map relup_release_of downs.now) (relup_of r)) }
    ensures refused { IfErr result (IsRefusal (relup_release_of new.now)
        (map relup_release_of ups.now) (map relup_release_of downs.now)) }
{
    let plain = plain_release(alloc, new, ups, downs)?;
    let relup = make_relup(alloc, &plain, ups, downs)?;
    Ok(relup)
}
