// A release is taken in from its file.
//
// `create` and `set_unpacked` take what `node_command` says that a path brings (`IsMade`, `IsUnpacked`). They are refused for the
// release's own file first, for its applications and its relup where the node would take it (`IsNotBegun`, `IsBarred`). The list
// keeps the libraries of each release, and its relup. The release's record carries the relup and the libraries that are new, and
// a boot gives the list both back from the records.
ghost use Rattle.std.specs.Prelude.{◌≡◌, true, false, string_bytes, None, IfOk, IfErr, OnOk};
ghost use Rattle.rel_files.specs.Release.{release_of};
ghost use Rattle.rel_list.specs.Event.Event.{unpacked};
ghost use Rattle.rel_list.specs.Releases.{first_different, status_of};
ghost use Rattle.rel_records.specs.Limits.{is_small};
ghost use Rattle.rel_unpack.specs.Unpacking.{brought_of, libraries_of};
ghost use Rattle.node_command.specs.Files.{HasFileTerms, IsWhole, bundle_brought, unpacked_size};
ghost use Rattle.node_command.specs.Place.{has_room, own_refusal};
ghost use Rattle.node_store.specs.Commands.{CommitsEvent};
ghost use Rattle.node_store.specs.State.{format_in, is_dead, list_in, IsSound};
ghost use Rattle.rel_handler.specs.Unpacking.{IsUnpacked, UnpackingRefused};

use crate::Handler;
use file_source::Files;
use node_command::{
    HandlerError, NewBundle, bring_release, has_room, new_bundle, new_version, unless_refused,
};
use node_store::NodeStore;
use record_writer::unpacked_body;
use rel_disk::Disk;
use rel_list::{Bundle, Event};
use rel_unpack::ReleaseFiles;
use std::alloc::Global;

impl<D: Disk> Handler<D> {
    /// Takes in the release in the file of this path as unpacked, then compacts a long store, and answers the release's version.
    /// At `Ok` it is acknowledged.
    ///
    /// All files are read first. Refusals, in this order: `Dead`; `MissingFile`, `BadFile`, `TooMany` for the release's file
    /// or its number of applications; `ExistingRelease`; application by application `MissingFile`, `BadFile`,
    /// `TooMany`, `VsnMismatch` for its files and `LibDiffers` for the list's library of its name and version; `BadFile`,
    /// `NoTable`, `TooMany` for the release as a whole; `TooMany` for the node's releases; `BadFile`, `TooMany`, `VsnMismatch` for
    /// its relup; `Full`. `NoMemory` may come in place of each but the first. Nothing has changed then. `Device` comes only where
    /// the list allows the release and its record fits; then the handler is dead, and the disk stands for its list with the
    /// release or without, and with it the store may be compacted.
    pub fn set_unpacked<F: Files>(
        &mut self,
        alloc: Global,
        files: &F,
        path: &str,
    ) -> Result<String, HandlerError>
        requires { IsSound D.seen D.may_leave self.old }
        ensures sound { IsSound D.seen D.may_leave self.new }
        ensures format { format_in self.new ≡ format_in self.old }
        ensures unpacked { IfOk result (λ vsn. IsUnpacked D.Disk (F.gives files.now) path.now
            self.old self.new (string_bytes vsn)) }
        ensures refused { IfErr result
            (UnpackingRefused D.Disk (F.gives files.now) path.now self.old self.new) }
    {
        if self.node.dead {
            return Err(HandlerError::Dead);
        }
        let brought = bring_release(alloc, files, path)?;
        let vsn = new_version(alloc, &self.node.list, &brought)?;
        let brought = unless_refused(brought, has_room(&self.node.list))?;
        take_in(&mut self.node, alloc, brought)?;
        Ok(vsn)
    }
}

// Takes in what was brought, of a version that isn't listed, and for which there is room.
fn take_in<D: Disk>(
    node: &mut NodeStore<D>,
    alloc: Global,
    brought: ReleaseFiles,
) -> Result<(), HandlerError>
    requires sound { IsSound D.seen D.may_leave node.old }
    requires alive { is_dead node.old ≡ false }
    requires terms { HasFileTerms (brought_of brought) }
    requires small { is_small (release_of brought.file.release) ≡ true }
    requires fresh { status_of (string_bytes brought.file.release.vsn) (list_in node.old)
        ≡ None }
    requires agree { first_different (list_in node.old) (libraries_of brought.applications)
        ≡ None }
    requires room { has_room (list_in node.old) ≡ true }
    requires free { own_refusal (brought_of brought) ≡ None }
    requires whole { IsWhole (brought_of brought) }
    ensures { CommitsEvent D.Disk (unpacked (bundle_brought (brought_of brought)))
        (unpacked_size (brought_of brought) (list_in node.old)) result node.old node.new }
{
    let NewBundle {
        rel,
        relup: relup_term,
        bundle: Bundle {
            release,
            libraries,
            relup,
        },
    } = new_bundle(brought);
    let libraries = node.list.share(alloc, libraries)?;
    let body = unpacked_body(alloc, &node.list, rel, libraries.as_slice(), relup_term)?;
    let bundle = Bundle {
        release,
        libraries,
        relup,
    };
    node.commit(alloc, Event::Unpacked(bundle), body.as_str())
}
