//! What a script mentions.
ghost use Rattle.std.specs.Prelude.{◌≡◌, ◌++◌, IfOk, OnOk, map};
ghost use Rattle.std.specs.Map.{lookup};
ghost use Rattle.std.specs.Str.{bytes_eq};
ghost use Rattle.appup_file.specs.Instruction.{appup_instruction_of};
ghost use Rattle.relup_lint.specs.Names.{texts, row_texts, version_texts};
ghost use Rattle.relup_lint.specs.Script.{all_placed, all_targets};
ghost use Rattle.relup_lint.specs.Findings.{places, placed_names, versions, version_in, target_versions, mentions, of_part};
ghost use Rattle.relup_lint.specs.Memory.{mentions_of};

use crate::modules::Modules;
use crate::parts::{Part, names_of};
use crate::places::{Places, Versions};
use crate::{PlacedInstr, TargetApp};
use appup_file::AppupInstr;
use relup_instruction::Instr;
use std::alloc::{AllocError, Global};

/// The names in a script, by what they are there for, and the target.
pub(crate) struct ScriptIndex<'s, 'a> {
    pub(crate) modules: Modules<'s, 'a>,
    changed: Places<'a>,
    fetched: Places<'a>,
    suspended: Places<'a>,
    resumed: Places<'a>,
    stopped: Places<'a>,
    started: Places<'a>,
    pub(crate) versions: Versions<'a>,
    pub(crate) target_versions: Versions<'a>,
}

// Let go by one call: a derived drop would stand field by field at each exit of a caller.
impl Drop for ScriptIndex<'_, '_> {
    fn drop(self) {
        let ScriptIndex {
            modules: _modules,
            changed: _changed,
            fetched: _fetched,
            suspended: _suspended,
            resumed: _resumed,
            stopped: _stopped,
            started: _started,
            versions: _versions,
            target_versions: _target_versions,
        } = self;
    }
}

impl<'s, 'a> ScriptIndex<'s, 'a> {
    /// That of a script that leads to this target.
    pub(crate) fn new(
        alloc: Global,
        script: &[PlacedInstr<'a>],
        target: &'s [TargetApp<'a>],
    ) -> Result<ScriptIndex<'s, 'a>, AllocError>
        ensures { IfOk result (λ index. mentions_of index ≡ mentions (record {
          instrs = all_placed script.now;
          target = all_targets target.now;
        })) }
    {
        let modules = Modules::new(alloc, target)?;
        let changed = places_of(alloc, Part::Changed, &modules, script)?;
        let fetched = places_of(alloc, Part::Fetched, &modules, script)?;
        let suspended = places_of(alloc, Part::Suspended, &modules, script)?;
        let resumed = places_of(alloc, Part::Resumed, &modules, script)?;
        let stopped = places_of(alloc, Part::Stopped, &modules, script)?;
        let started = places_of(alloc, Part::Started, &modules, script)?;
        let versions = versions_of(alloc, script)?;
        let target_versions = target_versions_of(alloc, target)?;
        Ok(ScriptIndex {
            modules,
            changed,
            fetched,
            suspended,
            resumed,
            stopped,
            started,
            versions,
            target_versions,
        })
    }

    /// The place of the first instruction that has a name for a part.
    pub(crate) fn first_place(&self, part: Part, name: &'a str) -> Option<usize>
        ensures { result ≡ lookup (bytes_eq name.now) (of_part part (mentions_of self.now)) }
    {
        match part {
            Part::Changed => self.changed.first(name),
            Part::Fetched => self.fetched.first(name),
            Part::Suspended => self.suspended.first(name),
            Part::Resumed => self.resumed.first(name),
            Part::Stopped => self.stopped.first(name),
            Part::Started => self.started.first(name),
        }
    }
}

// Adds rows of these names, all at one place.
fn push_names<'a>(
    names: &[&'a str],
    place: usize,
    rows: &mut Vec<(&'a str, usize)>,
) -> Result<(), AllocError>
    ensures { OnOk result (row_texts rows.new.items
        ≡ row_texts rows.old.items ++ placed_names place (texts names.now)) }
{
    for name in names {
        rows.push((*name, place))?;
    }
    Ok(())
}

fn place_rows<'a>(
    alloc: Global,
    part: Part,
    modules: &Modules<'_, 'a>,
    script: &[PlacedInstr<'a>],
) -> Result<Vec<(&'a str, usize)>, AllocError>
    ensures { IfOk result (λ rows.
        row_texts rows.items ≡ places part modules.now 0 (all_placed script.now)) }
{
    let mut rows = Vec::new(alloc);
    for place in 0..script.len() {
        let placed = script[place];
        let names = names_of(alloc, part, modules, placed.instr)?;
        push_names(&names, place, &mut rows)?;
    }
    Ok(rows)
}

fn places_of<'a>(
    alloc: Global,
    part: Part,
    modules: &Modules<'_, 'a>,
    script: &[PlacedInstr<'a>],
) -> Result<Places<'a>, AllocError>
    ensures { IfOk result (λ found.
        found ≡ places part modules.now 0 (all_placed script.now)) }
{
    let rows = place_rows(alloc, part, modules, script)?;
    Places::new(alloc, rows)
}

fn push_version<'a>(
    instr: &'a AppupInstr,
    rows: &mut Vec<(&'a str, &'a str)>,
) -> Result<(), AllocError>
    ensures { OnOk result (version_texts rows.new.items
        ≡ version_texts rows.old.items ++ version_in (appup_instruction_of instr.now)) }
{
    if let AppupInstr::LowLevel(Instr::LoadObjectCode(fetch)) = instr {
        rows.push((fetch.app.as_str(), fetch.vsn.as_str()))?;
    }
    Ok(())
}

fn version_rows<'a>(
    alloc: Global,
    script: &[PlacedInstr<'a>],
) -> Result<Vec<(&'a str, &'a str)>, AllocError>
    ensures { IfOk result (λ rows. version_texts rows.items ≡ versions (all_placed script.now)) }
{
    let mut rows = Vec::new(alloc);
    for placed in script {
        push_version(placed.instr, &mut rows)?;
    }
    Ok(rows)
}

fn versions_of<'a>(alloc: Global, script: &[PlacedInstr<'a>]) -> Result<Versions<'a>, AllocError>
    ensures { IfOk result (λ found. found ≡ versions (all_placed script.now)) }
{
    let rows = version_rows(alloc, script)?;
    Versions::new(alloc, rows)
}

fn target_version_rows<'a>(
    alloc: Global,
    target: &[TargetApp<'a>],
) -> Result<Vec<(&'a str, &'a str)>, AllocError>
    ensures { IfOk result (λ rows.
        version_texts rows.items ≡ target_versions (all_targets target.now)) }
{
    let mut rows = Vec::with_capacity(alloc, target.len())?;
    for app in target {
        rows.push((app.name, app.vsn))?;
    }
    Ok(rows)
}

fn target_versions_of<'a>(
    alloc: Global,
    target: &[TargetApp<'a>],
) -> Result<Versions<'a>, AllocError>
    ensures { IfOk result (λ found. found ≡ target_versions (all_targets target.now)) }
{
    let rows = target_version_rows(alloc, target)?;
    Versions::new(alloc, rows)
}
