// A node is made.
ghost use Rattle.std.specs.Prelude.{◌≡◌, ℕ, ◌≤◌, List, [], ◌∷◌, length, true, false, string_bytes, IfOk, IfErr, OnOk, IsErr};
ghost use Rattle.rel_files.specs.Release.{release_of};
ghost use Rattle.rel_list.specs.Releases.{entry};
ghost use Rattle.rel_list.specs.Event.Event.{made};
ghost use Rattle.rel_list.specs.Keyed.{bundle_of};
ghost use Rattle.rel_records.specs.Limits.{is_small};
ghost use Rattle.rel_records.specs.Reading.{Spells};
ghost use Rattle.rel_records.specs.Writing.{record_of};
ghost use Rattle.rel_store.specs.Contents.{HasOnlyRead};
ghost use Rattle.rel_store.specs.Layout.{slot_with};
ghost use Rattle.node_store.specs.Events.{log_with_doubt};
ghost use Rattle.node_command.specs.Files.{HasFileTerms, IsWhole, bundle_brought, made_size};
ghost use Rattle.node_command.specs.Place.{own_refusal};
ghost use Rattle.node_store.specs.Start.{start_text};
ghost use Rattle.node_store.specs.Image.{extent_after, first_extent, IsImageWithExtent, holds_a_store, HasSpace};
ghost use Rattle.rel_handler.specs.Moments.{Begins, BeginsAt, WritesNothing};
ghost use Rattle.rel_handler.specs.Refusals.{MakingRefused, reported_create, IsCreateError};
ghost use Rattle.node_store.specs.State.{disk_in, disk_of, extent_in, format_in, list_in, is_dead, start_in, IsSound};
ghost use Rattle.rel_handler.specs.Unpacking.{IsExistingOr, IsMade, NodeCreationRefused};
ghost use Rattle.rel_unpack.specs.Unpacking.{brought_of};
ghost use Rattle.rel_list.specs.declared.status.Status.TheVariants.{Permanent};

use crate::Handler;
use file_source::Files;
use node_command::{HandlerError, NewBundle, bring_release, new_bundle, unless_refused};
use node_store::NodeStore;
use record_writer::made_body;
use rel_disk::{DeviceFault, Disk};
use rel_files::Rel;
use rel_list::{Bundle, Event, ReleaseList};
use rel_store::{Store, StoreError, holds_a_store};
use rel_unpack::ReleaseFiles;
use std::alloc::{AllocError, Global};

impl<D: Disk> Handler<D> {
    /// Makes a node on a disk that has none, with the release in the file of this path as the permanent one.
    ///
    /// All files are read first. Refusals, in this order: `MissingFile`, `BadFile`, `TooMany` for the release's file or its
    /// number of applications; `Exists`; `MissingFile`, `BadFile`, `VsnMismatch`, `NoTable`, `TooMany` for the files of the
    /// applications; `BadFile`, `TooMany`, `VsnMismatch` for the relup; `Full`. `NoMemory` may come in place of each. Nothing
    /// has been written then. After `Device` the disk has no store or the new one, once the first sync has taken effect,
    /// whatever it answered; before that nothing but its first byte was written. The disk comes back with each refusal.
    pub fn create<F: Files>(
        alloc: Global,
        disk: D,
        files: &F,
        path: &str,
    ) -> Result<Handler<D>, (HandlerError, D)>
        ensures sound { IfOk result (IsSound D.seen D.may_leave) }
        ensures works { IfOk result (λ handler. is_dead handler ≡ false) }
        ensures format { IfOk result (λ handler. format_in handler ≡ 2) }
        ensures made { IfOk result (IsMade D.Disk (F.gives files.now) path.now disk) }
        ensures taken { holds_a_store (D.seen disk) ≡ true → IfErr result
            (λ e. WritesNothing D.seen D.may_leave D.moment D.left_since disk e.1) × IsErr result }

        ensures counted { D.failures disk ≤ D.failures (disk_of result) }
        ensures refused { IfErr result (λ e.
            NodeCreationRefused D.Disk (F.gives files.now) path.now disk e.1 e.0) }
    {
        let brought = match bring_release(alloc, files, path) {
            Ok(brought) => brought,
            Err(error) => return Err((error, disk)),
        };
        match unless_refused(brought, true) {
            Ok(brought) => Handler::make(alloc, disk, brought),
            Err(why) => {
                let mut disk = disk;
                let error = existing_or(&mut disk, why);
                Err((error, disk))
            }
        }
    }

    // Makes it with what was brought.
    fn make(alloc: Global, disk: D, brought: ReleaseFiles) -> Result<Handler<D>, (HandlerError, D)>
        requires terms { HasFileTerms (brought_of brought) }
        requires small { is_small (release_of brought.file.release) ≡ true }
        requires free { own_refusal (brought_of brought) ≡ None }
        requires whole { IsWhole (brought_of brought) }
        ensures sound { IfOk result (IsSound D.seen D.may_leave) }
        ensures works { IfOk result (λ handler. is_dead handler ≡ false) }
        ensures list { IfOk result (λ handler. list_in handler
            ≡ entry (bundle_brought (brought_of brought)) Permanent ∷ []) }
        ensures acknowledged { IfOk result (λ handler. (c : List ℕ)
            → D.may_leave (disk_in handler) c
            → IsImageWithExtent c (list_in handler) (extent_in handler)) }
        ensures start { IfOk result (λ handler. start_in D.seen handler
            ≡ slot_with (start_text (release_of brought.file.release))) }
        ensures fits { OnOk result (HasSpace first_extent (made_size (brought_of brought))) }
        ensures extent { IfOk result (λ handler. extent_in handler
            ≡ extent_after first_extent (made_size (brought_of brought))) }
        ensures any_moment { Begins D.Disk
            (log_with_doubt [] (made (bundle_brought (brought_of brought)))) disk (disk_of result) }
        ensures begun { OnOk result ((at : D)
            × BeginsAt D.Disk
            (log_with_doubt [] (made (bundle_brought (brought_of brought)))) disk
            (disk_of result) at) }
        ensures format { IfOk result (λ handler. format_in handler ≡ 2) }
        ensures taken { holds_a_store (D.seen disk) ≡ true → IfErr result
            (λ e. WritesNothing D.seen D.may_leave D.moment D.left_since disk e.1) × IsErr result }
        ensures counted { D.failures disk ≤ D.failures (disk_of result) }
        ensures refused { IfErr result (λ e. MakingRefused (D.seen disk)
            (made_size (brought_of brought)) (D.failures disk) (D.failures e.1)
            (WritesNothing D.seen D.may_leave D.moment D.left_since disk e.1) e.0) }
    {
        let Ok(new) = NewNode::of(alloc, brought) else {
            return Err((HandlerError::NoMemory, disk));
        };
        let NewNode { body, start, list } = new;
        match Store::create(alloc, disk, body.as_bytes(), start.as_bytes()) {
            Ok(store) => Ok(Handler {
                node: NodeStore {
                    store,
                    list,
                    dead: false,
                },
            }),
            Err((error, disk)) => Err((create_error(error), disk)),
        }
    }
}

// Why no node is made with a release that is refused for its applications or its relup, for this reason: a store on the disk is
// reported before it.
fn existing_or<D: Disk>(disk: &mut D, why: HandlerError) -> HandlerError
    ensures read { HasOnlyRead D.seen D.may_leave D.moment D.left_since disk.old disk.new }
    ensures unsynced { D.syncs disk.new ≡ D.syncs disk.old }
    ensures counted { D.failures disk.old ≤ D.failures disk.new }
    ensures reported { IsExistingOr why (D.seen disk.old) (D.failures disk.old)
        (D.failures disk.new) result }
{
    match holds_a_store(disk) {
        Ok(true) => HandlerError::Exists,
        Ok(false) => why,
        Err(DeviceFault) => HandlerError::Device,
    }
}

// What a node begins with: its record, its start slot and its list.
#[derive(Drop)]
struct NewNode {
    body: String,
    start: String,
    list: ReleaseList,
}

impl NewNode {
    // All of it, or nothing where memory is refused.
    fn of(alloc: Global, brought: ReleaseFiles) -> Result<NewNode, AllocError>
        requires terms { HasFileTerms (brought_of brought) }
        requires free { own_refusal (brought_of brought) ≡ None }
        requires whole { IsWhole (brought_of brought) }
        ensures body { IfOk result (λ new.
            length (string_bytes new.body) ≡ made_size (brought_of brought)) }
        ensures spells { IfOk result (λ new. Spells (string_bytes new.body)
            (record_of (made (bundle_brought (brought_of brought))) [])) }
        ensures start { IfOk result (λ new. string_bytes new.start
            ≡ start_text (release_of brought.file.release)) }
        ensures list { IfOk result (λ new.
            new.list ≡ entry (bundle_brought (brought_of brought)) Permanent ∷ []) }
    {
        let NewBundle { rel, relup, bundle } = new_bundle(brought);
        let start = start_text(alloc, &bundle.release)?;
        let body = made_body(alloc, rel, bundle.libraries.as_slice(), relup)?;
        let list = list_of(alloc, bundle)?;
        Ok(NewNode { body, start, list })
    }
}

// The list of a node that is made with a release.
fn list_of(alloc: Global, bundle: Bundle) -> Result<ReleaseList, AllocError>
    ensures { IfOk result (λ list. list ≡ entry (bundle_of bundle) Permanent ∷ []) }
{
    let mut list = ReleaseList::new(alloc);
    if list.accept(alloc, Event::Made(bundle)).is_err() {
        return Err(AllocError);
    }
    Ok(list)
}

// The text of the start slot for a release.
fn start_text(alloc: Global, release: &Rel) -> Result<String, AllocError>
    ensures { IfOk result (λ text. string_bytes text ≡ start_text (release_of release.now)) }
{
    let mut text = String::from_str(alloc, release.erts.as_str())?;
    text.push(' ')?;
    text.push_str(release.vsn.as_str())?;
    text.push('\n')?;
    Ok(text)
}

// What is reported of a store that isn't made.
fn create_error(error: StoreError) -> HandlerError
    requires { IsCreateError error }
    ensures { result ≡ reported_create error }
{
    match error {
        StoreError::Exists => HandlerError::Exists,
        StoreError::Full => HandlerError::Full,
        StoreError::Device => HandlerError::Device,
        StoreError::NoMemory => HandlerError::NoMemory,
        StoreError::NotAStore | StoreError::Damaged(_) | StoreError::MustReopen => unreachable!(),
    }
}
