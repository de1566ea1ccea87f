//! The relup of a release.
ghost use Rattle.std.specs.Prelude.{◌≡◌, map};
ghost use Rattle.std.specs.List.{list_all};
ghost use Rattle.std.specs.Result.{result_err};
ghost use Rattle.relup_file.specs.Relup.{entry_of, relup_of};
ghost use Rattle.rel_check.specs.Relup.{has_short_scripts, is_short, relup_mismatch};

use relup_file::{Relup, RelupEntry};

// How many instructions a script has at most.
const MOST_INSTRUCTIONS: usize = 4_096;

/// Why a release can't have a relup. Of both the one that stands first here is reported.
#[derive(Clone, Copy)]
pub enum RelupMismatch {
    /// A script has too many instructions.
    TooMany,
    /// The relup is that of a release of another version.
    OtherVersion,
}

/// Whether a release of this version can have this relup.
pub fn check_relup(vsn: &str, relup: &Relup) -> Result<(), RelupMismatch>
    ensures { result_err result ≡ relup_mismatch vsn.now (relup_of relup.now) }
{
    if !has_short_scripts(relup) {
        return Err(RelupMismatch::TooMany);
    }
    if relup.vsn.as_str() == vsn {
        Ok(())
    } else {
        Err(RelupMismatch::OtherVersion)
    }
}

fn has_short_scripts(relup: &Relup) -> bool
    ensures { result ≡ has_short_scripts (relup_of relup.now) }
{
    are_short(relup.ups.as_slice()) && are_short(relup.downs.as_slice())
}

// The scripts of all entries are short.
fn are_short(entries: &[RelupEntry]) -> bool
    ensures { result ≡ list_all is_short (map entry_of entries.now) }
{
    for entry in entries {
        if entry.script.len() > MOST_INSTRUCTIONS {
            return false;
        }
    }
    true
}
