//! Where processes stand in the tree, by the slots in which they began.
ghost use Rattle.std.specs.Prelude.{◌≡◌, ◌+◌, ◌<◌, ◌≤◌, IfOk, Some, drop, false, length, map, vec_capacity};
ghost use Rattle.std.specs.Option.{option_map, option_map_or};
ghost use Rattle.std.specs.Str.{bytes_eq};
ghost use Rattle.proc_table.specs.Agrees.{slots};
ghost use Rattle.sup_tree.specs.Spots.{AreSpotsOf, HaveRoom, IsPut, KnowsSpots, StandAt, module_at_spot, module_hash};
ghost use Rattle.sup_tree.specs.Tree.{NotesUsers, all_processes, app_of};

use crate::StartedApp;
use proc_table::SLOTS;
use started_members::note_users;
use std::alloc::{AllocError, Global};
use std::hash::{FoldHasher, Hasher};

/// Where a process stands.
#[derive(Clone, Copy)]
pub(crate) struct Spot {
    /// The place of its application.
    pub app: usize,
    /// The place of its member in that.
    pub member: usize,
    /// The hash of the module that it runs: where two hashes differ, the names needn't be compared.
    pub hash: u64,
}

/// Where the process stands that began in each slot: of several that began there the first. Past the last of these no process
/// began. They are found in one walk through the members, and there is room for those of all slots.
pub(crate) fn spots_of(alloc: Global, apps: &[StartedApp]) -> Result<Vec<Option<Spot>>, AllocError>
    ensures spots { IfOk result (λ spots. AreSpotsOf (map app_of apps.now) spots.items) }
    ensures room { IfOk result (λ spots. slots ≤ vec_capacity spots) }
{
    let mut spots = Vec::with_capacity(alloc, SLOTS)?;
    find_again(&mut spots, apps);
    Ok(spots)
}

/// Where the applications have changed, the spots that are known of them are found again. It takes no memory.
pub(crate) fn follow(known: &mut Option<Vec<Option<Spot>>>, apps: &[StartedApp])
    requires { HaveRoom known.old }
    ensures { KnowsSpots (map app_of apps.now) known.new }
{
    if let Some(spots) = known {
        find_again(spots, apps);
    }
}

fn find_again(spots: &mut Vec<Option<Spot>>, apps: &[StartedApp])
    requires room { slots ≤ vec_capacity spots.old }
    ensures spots { AreSpotsOf (map app_of apps.now) spots.new.items }
    ensures room { slots ≤ vec_capacity spots.new }
{
    spots.clear();
    for place in (0..apps.len()).rev() {
        add_app(spots, apps, place);
    }
}

// The spots of the application at this place and of those after it, by the spots of those after it.
fn add_app(spots: &mut Vec<Option<Spot>>, apps: &[StartedApp], place: usize)
    requires room { slots ≤ vec_capacity spots.old }
    requires inside { place < length apps.now }
    requires later { StandAt (map app_of apps.now)
        (all_processes (map app_of (drop (place + 1) apps.now))) spots.old.items }
    ensures spots { StandAt (map app_of apps.now)
        (all_processes (map app_of (drop place apps.now))) spots.new.items }
    ensures room { slots ≤ vec_capacity spots.new }
{
    let members = apps[place].members.as_slice();
    // The first process of a slot is put there last.
    for member in (0..members.len()).rev() {
        if let Some(process) = members[member].process() {
            let spot = Spot {
                app: place,
                member,
                hash: module_hash(process.module.as_str()),
            };
            put(spots, process.pid.slot, spot);
        }
    }
}

fn put(spots: &mut Vec<Option<Spot>>, slot: usize, spot: Spot)
    requires room { slots ≤ vec_capacity spots.old }
    requires few { length spots.old.items ≤ slots }
    requires inside { slot < slots }
    ensures put { IsPut slot spot spots.old.items spots.new.items }
    ensures room { slots ≤ vec_capacity spots.new }
{
    for _ in spots.len()..slot + 1 {
        spots.push_reserved(None);
    }
    spots[slot] = Some(spot);
}

/// Which slots have a process that runs this module, by the spots of these applications.
pub(crate) fn users_at(apps: &[StartedApp], spots: &[Option<Spot>], module: &str) -> [bool; SLOTS]
    requires { AreSpotsOf (map app_of apps.now) spots.now }
    ensures { NotesUsers «module».now (map app_of apps.now) result }
{
    let hash = module_hash(module);
    let mut used = [false; SLOTS];
    for slot in 0..spots.len() {
        used[slot] = runs_at(apps, spots[slot], hash, module);
    }
    used
}

/// Which slots have a process that runs this module, found in one walk through the members.
pub(crate) fn users_among(apps: &[StartedApp], module: &str) -> [bool; SLOTS]
    ensures { NotesUsers «module».now (map app_of apps.now) result }
{
    let mut used = [false; SLOTS];
    for place in (0..apps.len()).rev() {
        note_users(&mut used, apps[place].members.as_slice(), module);
    }
    used
}

// Whether the process that stands there runs the module with this hash.
fn runs_at(apps: &[StartedApp], spot: Option<Spot>, hash: u64, module: &str) -> bool
    requires hash { hash ≡ module_hash «module».now }
    requires own { option_map (λ s. s.hash) spot
        ≡ option_map module_hash (module_at_spot (map app_of apps.now) spot) }
    ensures { result ≡ option_map_or (bytes_eq «module».now)
        (module_at_spot (map app_of apps.now) spot) false }
{
    match spot {
        Some(there) if there.hash == hash => match module_at_spot(apps, there) {
            Some(own) => module == own,
            None => false,
        },
        Some(_) | None => false,
    }
}

// The module of the process that stands there.
fn module_at_spot(apps: &[StartedApp], spot: Spot) -> Option<&str>
    ensures { option_map (λ m. m.now) result ≡ module_at_spot (map app_of apps.now) (Some spot) }
{
    let app = apps.get(spot.app)?;
    let process = app.members.as_slice().get(spot.member)?.process()?;
    Some(process.module.as_str())
}

fn module_hash(module: &str) -> u64
    ensures { result ≡ module_hash «module».now }
{
    let mut hasher = FoldHasher::default();
    hasher.write(module.as_bytes());
    hasher.finish()
}
