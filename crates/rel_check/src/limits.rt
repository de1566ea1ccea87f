//! How much a release may have.
ghost use Rattle.std.specs.Prelude.{◌≡◌};
ghost use Rattle.rel_files.specs.Release.{release_of};
ghost use Rattle.rel_check.specs.Limits.{is_small};

use rel_files::Rel;

// How many applications a release has at most.
const MOST_APPLICATIONS: usize = 64;

/// Whether the release has no more applications than it may have.
pub fn is_small(release: &Rel) -> bool
    ensures { result ≡ is_small (release_of release.now) }
{
    release.apps.len() <= MOST_APPLICATIONS
}
