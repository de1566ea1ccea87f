//! Modules that are loaded in another version than a release has.
ghost use Rattle.std.specs.Prelude.{◌≡◌, IfOk, OnOk, filter};
ghost use Rattle.loaded_modules.specs.Loaded.{listed_in};
ghost use Rattle.node_upgrade.specs.InMemory.{NotesNames, is_noted};
ghost use Rattle.node_upgrade.specs.Names.{AreNamesWith, sorted_names};
ghost use Rattle.node_upgrade.specs.Stale.{is_stale, names_concerned, names_in, names_loaded};
ghost use Rattle.relup_instruction.specs.Instruction.{script_of};

use loaded_modules::Loaded;
use proc_table::Name;
use relup_instruction::Instr;
use std::alloc::{AllocError, Global};
use std::collections::BTreeMap;

// Names that are noted.
type Noted<'a> = BTreeMap<&'a str, ()>;

/// The names of the modules that may be stale once the script has ended: those of what is loaded before it, of what the release
/// has, and of what the script loads. Each once, by their bytes.
pub(crate) fn names_concerned(
    alloc: Global,
    loaded: &Loaded,
    target: &Loaded,
    script: &[Instr],
) -> Result<Vec<Name>, AllocError>
    ensures { IfOk result (λ names. names.items ≡ sorted_names (names_concerned
        (listed_in loaded.now) (listed_in target.now) (script_of script.now))) }
{
    let mut noted = BTreeMap::new(alloc);
    note_modules(alloc, loaded, &mut noted)?;
    note_modules(alloc, target, &mut noted)?;
    note_loads(script, &mut noted)?;
    names_of(alloc, &noted)
}

/// Leaves those of the names whose modules are stale. It takes no memory.
pub(crate) fn keep_stale(names: &mut Vec<Name>, loaded: &Loaded, target: &Loaded)
    ensures { names.new.items
        ≡ filter (is_stale (listed_in loaded.now) (listed_in target.now)) names.old.items }
{
    names.retain(|name| is_stale(loaded, target, name.as_str()));
}

// Notes the names of these modules.
fn note_modules<'a>(
    alloc: Global,
    modules: &'a Loaded,
    noted: &mut Noted<'a>,
) -> Result<(), AllocError>
    ensures { OnOk result (NotesNames (names_in (listed_in modules.now)) noted.old noted.new) }
{
    let versions = modules.versions(alloc)?;
    for (name, _) in versions.as_slice() {
        noted.insert(name, ())?;
    }
    Ok(())
}

// Notes the names of the modules that the script loads.
fn note_loads<'a>(script: &'a [Instr], noted: &mut Noted<'a>) -> Result<(), AllocError>
    ensures { OnOk result (NotesNames (names_loaded (script_of script.now)) noted.old noted.new) }
{
    for instr in script {
        if let Instr::Load(purging) = instr {
            noted.insert(purging.name.as_str(), ())?;
        }
    }
    Ok(())
}

// Whether the module is loaded in another version than the release has, or only one of the two has it.
fn is_stale(loaded: &Loaded, target: &Loaded, name: &str) -> bool
    ensures { result ≡ is_stale (listed_in loaded.now) (listed_in target.now) name.now }
{
    match loaded.vsn(name) {
        Some(vsn) => match target.vsn(name) {
            Some(other) => vsn != other,
            None => true,
        },
        None => target.vsn(name).is_some(),
    }
}

// The names that are noted, in their order.
fn names_of<'a>(alloc: Global, noted: &Noted<'a>) -> Result<Vec<Name>, AllocError>
    ensures { IfOk result (λ names. AreNamesWith (is_noted noted.now) names.items) }
{
    let mut names = Vec::new(alloc);
    for name in noted.keys() {
        names.push(Name::new(String::from_str(alloc, name)?))?;
    }
    Ok(names)
}
