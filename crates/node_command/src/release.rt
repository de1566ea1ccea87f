// A release is brought from its files, and asked of a node's list.
ghost use Rattle.std.specs.Prelude.{◌≡◌, true, string_bytes, None, Ok, Err, IfOk, IfErr, OnOk};
ghost use Rattle.std.specs.Option.{option_map};
ghost use Rattle.erl_term.specs.Value.{value_of};
ghost use Rattle.rel_files.specs.Release.{release_of};
ghost use Rattle.rel_list.specs.Keyed.{bundle_of};
ghost use Rattle.rel_list.specs.Releases.{first_different, status_of};
ghost use Rattle.rel_records.specs.Limits.{is_small};
ghost use Rattle.rel_records.specs.Parts.{files_of};
ghost use Rattle.rel_unpack.specs.Unpacking.{brought_of, libraries_of};
ghost use Rattle.relup_file.specs.Relup.{relup_of};
ghost use Rattle.node_command.specs.Files.{Brings, HasFileTerms, IsOfFiles, IsReportedAs, IsWhole, bundle_brought, terms_brought};
ghost use Rattle.node_command.specs.Place.{HasNoPlace, has_room, own_refusal, refusal_with};

use crate::HandlerError;
use erl_term::Term;
use file_source::Files;
use rel_files::RelFile;
use rel_list::{Bundle, ReleaseList};
use rel_records::MOST_RELEASES;
use rel_unpack::{ApplicationFiles, ReleaseFiles, UnpackError, unpack_release};
use relup_file::{Relup, RelupFile};
use std::alloc::Global;

/// The release of a path, what the files of its applications give, and its relup. All its files are read.
///
/// Refusals: `MissingFile`, `BadFile`, `TooMany` for the release's own file or its number of applications. `NoMemory` may
/// come in place of each.
pub fn bring_release<F: Files>(
    alloc: Global,
    files: &F,
    path: &str,
) -> Result<ReleaseFiles, HandlerError>
    ensures brought { IfOk result (λ r. Brings (F.gives files.now) path.now (Ok (brought_of r))) }
    ensures terms { IfOk result (λ r. HasFileTerms (brought_of r)) }
    ensures small { IfOk result (λ r. is_small (release_of r.file.release) ≡ true) }
    ensures whole { IfOk result (λ r. own_refusal (brought_of r) ≡ None → IsWhole (brought_of r)) }
    ensures refused { IfErr result (IsOfFiles (F.gives files.now) path.now) }
{
    Ok(unpack_release(alloc, files, path)?)
}

/// The version of what was brought, where it is new to the list and no library differs from the list's.
///
/// Refusals, in this order: `ExistingRelease`; `LibDiffers`, with the name of the first library that differs. `NoMemory` may
/// come in place of each.
pub fn new_version(
    alloc: Global,
    list: &ReleaseList,
    brought: &ReleaseFiles,
) -> Result<String, HandlerError>
    ensures version { IfOk result (λ vsn.
        string_bytes vsn ≡ string_bytes brought.now.file.release.vsn) }
    ensures fresh { OnOk result
        (status_of (string_bytes brought.now.file.release.vsn) list.now ≡ None) }
    ensures agree { OnOk result
        (first_different list.now (libraries_of brought.now.applications) ≡ None) }
    ensures refused { IfErr result (HasNoPlace (brought_of brought.now) list.now) }
{
    let vsn = brought.file.release.vsn.as_str();
    if list.status(vsn).is_some() {
        return Err(HandlerError::ExistingRelease);
    }
    let libraries = brought.applications.libraries.as_slice();
    if let Some(library) = list.first_different(libraries) {
        let name = String::from_str(alloc, library.app.name.as_str())?;
        return Err(HandlerError::from(UnpackError::LibDiffers(name)));
    }
    Ok(String::from_str(alloc, vsn)?)
}

/// What was brought, where it isn't refused for its other files.
///
/// Refusals, in this order: that of the applications, `MissingFile`, `BadFile`, `VsnMismatch`, `NoTable` or `TooMany`;
/// `TooMany` where the node has no room for a further release; that of the relup, `BadFile`, `TooMany` or `VsnMismatch`.
pub fn unless_refused(brought: ReleaseFiles, has_room: bool) -> Result<ReleaseFiles, HandlerError>
    ensures brought { IfOk result (λ r. r ≡ brought) }
    ensures free { OnOk result (refusal_with has_room (brought_of brought) ≡ None) }
    ensures refused { IfErr result (IsReportedAs (refusal_with has_room (brought_of brought))) }
{
    let ReleaseFiles {
        file,
        applications: ApplicationFiles { libraries, refusal },
        relup,
    } = brought;
    if let Some(why) = refusal {
        return Err(HandlerError::from(why));
    }
    if !has_room {
        return Err(HandlerError::TooMany);
    }
    let relup = relup?;
    Ok(ReleaseFiles {
        file,
        applications: ApplicationFiles {
            libraries,
            refusal: None,
        },
        relup: Ok(relup),
    })
}

/// Whether a node with this list has room for a further release.
pub fn has_room(list: &ReleaseList) -> bool
    ensures { result ≡ has_room list.now }
{
    list.len() < MOST_RELEASES
}

/// A release for a node: with its libraries and its relup, and with the terms of its files, as a record carries them.
#[derive(Drop)]
pub struct NewBundle {
    pub rel: Term,
    pub relup: Option<Term>,
    pub bundle: Bundle,
}

/// What was brought and isn't refused, as a release for a node. It takes no memory.
pub fn new_bundle(brought: ReleaseFiles) -> NewBundle
    requires { own_refusal (brought_of brought) ≡ None }
    ensures bundle { bundle_of result.bundle ≡ bundle_brought (brought_of brought) }
    ensures terms { files_of result.rel result.relup ≡ terms_brought (brought_of brought) }
{
    let ReleaseFiles {
        file: RelFile { term: rel, release },
        applications: ApplicationFiles {
            libraries,
            refusal: _refusal,
        },
        relup,
    } = brought;
    let Ok(relup) = relup else {
        unreachable!();
    };
    let (term, relup) = parts_of(relup);
    NewBundle {
        rel,
        relup: term,
        bundle: Bundle {
            release,
            libraries,
            relup,
        },
    }
}

// The term of a relup's file, and the relup.
fn parts_of(relup: Option<RelupFile>) -> (Option<Term>, Option<Relup>)
    ensures term { option_map value_of result.0 ≡ option_map (λ f. value_of f.term) relup }
    ensures relup { option_map relup_of result.1 ≡ option_map (λ f. relup_of f.relup) relup }
{
    match relup {
        Some(RelupFile { term, relup }) => (Some(term), Some(relup)),
        None => (None, None),
    }
}
