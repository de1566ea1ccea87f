//! The relup of a release, from files.
ghost use Rattle.std.specs.Prelude.{IfOk, IfErr, map, string_bytes};
ghost use Rattle.relup_file.specs.Relup.{relup_of};
ghost use Rattle.relup_command.specs.Relup.{IsMadeOf, IsRefusalOf};

use crate::error::RelupError;
use crate::releases::read_releases;
use file_source::Files;
use relup_file::Relup;
use relup_translate::make_relup;
use std::alloc::Global;

/// The relup of the release of the path `new`: the scripts up to it from the releases of the paths `ups`, and down from it to
/// those of `downs`. A path is of a `.rel` file; those of `.app` and appup files follow from what it says.
///
/// Files are read one after another, each release's before the next one's, and the appups of `new` last. The first one that
/// isn't taken is reported. An application without an appup file has none.
pub fn make_relup_of_files<F: Files>(
    alloc: Global,
    files: &F,
    new: &str,
    ups: &[String],
    downs: &[String],
) -> Result<Relup, RelupError>
    // A relup is the translation of what the files say.
    ensures made { IfOk result (λ r. IsMadeOf (F.gives files.now) new.now
        (map string_bytes ups.now) (map string_bytes downs.now) (relup_of r)) }

    // A refusal is that of the first file that isn't taken, or of the translation.
    ensures refused { IfErr result (IsRefusalOf (F.gives files.now) new.now
        (map string_bytes ups.now) (map string_bytes downs.now)) }
{
    let releases = read_releases(alloc, files, new, ups, downs)?;
    let relup = make_relup(
        alloc,
        &releases.new,
        releases.ups.as_slice(),
        releases.downs.as_slice(),
    )?;
    Ok(relup)
}
