//! What is refused of a script.
ghost use Rattle.std.specs.Prelude.{◌≡◌, ◌++◌, ◌∷◌, [], IfOk, OnOk, map, filter};
ghost use Rattle.std.specs.Map.{lookup};
ghost use Rattle.std.specs.Option.{option_map};
ghost use Rattle.std.specs.Str.{bytes_eq};
ghost use Rattle.appup_file.specs.Instruction.{appup_instruction_of};
ghost use Rattle.relup_lint.specs.Names.{texts};
ghost use Rattle.relup_lint.specs.Script.{all_placed, all_targets, placed_of};
ghost use Rattle.relup_lint.specs.Findings.{changed_before, is_missing, refusal_without, is_other, is_fetched_too, fetch_refusal, single_refusal, option_row, finding, findings_at, findings, checks_before, IsReported, is_earlier};
ghost use Rattle.relup_lint.specs.Parts.{changed_names, needed_part, needing_names, names_without_time};
ghost use Rattle.relup_lint.specs.Findings.RefusalForm.{no_time, not_alone};
ghost use Rattle.relup_lint.specs.Memory.{all_findings, finding_of, refusal_of, mentions_of};

use crate::index::ScriptIndex;
use crate::parts::{Part, names_of, names_without_time, needed_part, needing_names};
use crate::places::Versions;
use crate::{Finding, PlacedInstr, Refusal, TargetApp};
use appup_file::AppupInstr;
use relup_instruction::Instr;
use std::alloc::{AllocError, Global};

/// Each refusal of a script that leads to this target, in the order of the instructions. Of one instruction, what it
/// names comes in the order of the names.
pub fn findings<'a>(
    alloc: Global,
    script: &[PlacedInstr<'a>],
    target: &[TargetApp<'a>],
) -> Result<Vec<Finding<'a>>, AllocError>
    ensures { IfOk result (λ found. all_findings found.items
        ≡ findings (record { instrs = all_placed script.now; target = all_targets target.now })) }
{
    let index = ScriptIndex::new(alloc, script, target)?;
    let mut found = Vec::new(alloc);
    for place in 0..script.len() {
        push_findings(alloc, &index, place, script[place], &mut found)?;
    }
    Ok(found)
}

/// The refusal at which `systools` stops: of the earliest check that refuses anything, the first in the script.
pub fn first_finding<'a>(
    alloc: Global,
    script: &[PlacedInstr<'a>],
    target: &[TargetApp<'a>],
) -> Result<Option<Finding<'a>>, AllocError>
    ensures { IfOk result (λ first. IsReported
        (findings (record { instrs = all_placed script.now; target = all_targets target.now }))
        (option_map finding_of first)) }
{
    let found = findings(alloc, script, target)?;
    Ok(earliest(&found))
}

fn refusal_without(part: Part, name: &str) -> Refusal<'_>
    ensures { refusal_of result ≡ refusal_without part name.now }
{
    match part {
        Part::Changed => Refusal::NotChanged(name),
        Part::Fetched => Refusal::NotFetched(name),
        Part::Suspended => Refusal::NotSuspended(name),
        Part::Resumed => Refusal::NotResumed(name),
        Part::Stopped => Refusal::NotStopped(name),
        Part::Started => Refusal::NotStarted(name),
    }
}

fn push_finding<'a>(
    placed: PlacedInstr<'a>,
    refusal: Refusal<'a>,
    found: &mut Vec<Finding<'a>>,
) -> Result<(), AllocError>
    ensures { OnOk result (all_findings found.new.items ≡ all_findings found.old.items
        ++ (finding (placed_of placed.entry) (refusal_of refusal.entry) ∷ [])) }
{
    found.push(Finding {
        app: placed.app,
        number: placed.number,
        refusal,
    })?;
    Ok(())
}

fn push_without_time<'a>(
    alloc: Global,
    placed: PlacedInstr<'a>,
    found: &mut Vec<Finding<'a>>,
) -> Result<(), AllocError>
    ensures { OnOk result (all_findings found.new.items ≡ all_findings found.old.items
        ++ map (λ m. finding (placed_of placed.entry) (no_time m))
        (names_without_time (placed_of placed.entry).instr)) }
{
    let names = names_without_time(alloc, placed.instr)?;
    for name in &names {
        push_finding(placed, Refusal::NoTime(*name), found)?;
    }
    Ok(())
}

// Whether another instruction than the one at this place has the module first.
fn changed_before<'a>(index: &ScriptIndex<'_, 'a>, place: usize, name: &'a str) -> bool
    ensures { result ≡ changed_before (mentions_of index.now) place name.now }
{
    match index.first_place(Part::Changed, name) {
        Some(first) => first != place,
        None => false,
    }
}

fn push_changed_before<'a>(
    alloc: Global,
    index: &ScriptIndex<'_, 'a>,
    place: usize,
    placed: PlacedInstr<'a>,
    found: &mut Vec<Finding<'a>>,
) -> Result<(), AllocError>
    ensures { OnOk result (all_findings found.new.items ≡ all_findings found.old.items
        ++ map (λ m. finding (placed_of placed.entry) (not_alone m))
        (filter (changed_before (mentions_of index.now) place)
        (changed_names (mentions_of index.now).target (placed_of placed.entry).instr))) }
{
    let names = names_of(alloc, Part::Changed, &index.modules, placed.instr)?;
    for name in &names {
        if changed_before(index, place, name) {
            push_finding(placed, Refusal::NotAlone(*name), found)?;
        }
    }
    Ok(())
}

fn is_missing<'a>(index: &ScriptIndex<'_, 'a>, part: Part, name: &'a str) -> bool
    ensures { result ≡ is_missing (mentions_of index.now) part name.now }
{
    index.first_place(part, name).is_none()
}

fn push_missing<'a>(
    alloc: Global,
    index: &ScriptIndex<'_, 'a>,
    placed: PlacedInstr<'a>,
    found: &mut Vec<Finding<'a>>,
) -> Result<(), AllocError>
    ensures { OnOk result (let instr = (placed_of placed.entry).instr in
        let part = needed_part instr in
        all_findings found.new.items ≡ all_findings found.old.items
        ++ map (λ m. finding (placed_of placed.entry) (refusal_without part m))
        (filter (is_missing (mentions_of index.now) part) (needing_names instr))) }
{
    let part = needed_part(placed.instr);
    let names = needing_names(alloc, placed.instr)?;
    for name in &names {
        if is_missing(index, part, name) {
            push_finding(placed, refusal_without(part, name), found)?;
        }
    }
    Ok(())
}

// Whether one of these libraries and versions is first this library in another version.
fn has_other_version<'a>(versions: &Versions<'a>, app: &'a str, vsn: &str) -> bool
    ensures { result ≡ is_other vsn.now (lookup (bytes_eq app.now) versions.now) }
{
    match versions.first(app) {
        Some(first) => first != vsn,
        None => false,
    }
}

// Whether an instruction has a module of its own that the target has of a library.
fn is_fetched_too<'a>(index: &ScriptIndex<'_, 'a>, app: &'a str) -> bool
    ensures { result ≡ is_fetched_too (mentions_of index.now) app.now }
{
    for name in index.modules.of(app) {
        if index.first_place(Part::Changed, name.as_str()).is_some() {
            return true;
        }
    }
    false
}

// Why a library that is fetched in this version is refused.
fn fetch_refusal<'a>(index: &ScriptIndex<'_, 'a>, app: &'a str, vsn: &str) -> Option<Refusal<'a>>
    ensures { fetch_refusal (mentions_of index.now) app.now vsn.now ≡ option_map refusal_of result }
{
    if has_other_version(&index.versions, app, vsn) {
        return Some(Refusal::NotOneVersion(app));
    }
    if has_other_version(&index.target_versions, app, vsn) && is_fetched_too(index, app) {
        return Some(Refusal::NotOfTarget(app));
    }
    None
}

// What is refused of an instruction by itself.
fn single_refusal<'a>(index: &ScriptIndex<'_, 'a>, instr: &'a AppupInstr) -> Option<Refusal<'a>>
    ensures { single_refusal (mentions_of index.now) (appup_instruction_of instr.now)
        ≡ option_map refusal_of result }
{
    match instr {
        AppupInstr::RemoveApplication(app) => {
            if index.modules.has(app.as_str()) {
                return Some(Refusal::NotRemoved(app.as_str()));
            }
            None
        }
        AppupInstr::LowLevel(Instr::LoadObjectCode(fetch)) => {
            fetch_refusal(index, fetch.app.as_str(), fetch.vsn.as_str())
        }
        _ => None,
    }
}

fn push_single<'a>(
    index: &ScriptIndex<'_, 'a>,
    placed: PlacedInstr<'a>,
    found: &mut Vec<Finding<'a>>,
) -> Result<(), AllocError>
    ensures { OnOk result (all_findings found.new.items ≡ all_findings found.old.items
        ++ map (finding (placed_of placed.entry)) (option_row
        (single_refusal (mentions_of index.now) (placed_of placed.entry).instr))) }
{
    if let Some(refusal) = single_refusal(index, placed.instr) {
        push_finding(placed, refusal, found)?;
    }
    Ok(())
}

// Adds what is refused of the instruction at a place.
fn push_findings<'a>(
    alloc: Global,
    index: &ScriptIndex<'_, 'a>,
    place: usize,
    placed: PlacedInstr<'a>,
    found: &mut Vec<Finding<'a>>,
) -> Result<(), AllocError>
    ensures { OnOk result (all_findings found.new.items ≡ all_findings found.old.items
        ++ findings_at (mentions_of index.now) place (placed_of placed.entry)) }
{
    push_without_time(alloc, placed, found)?;
    push_changed_before(alloc, index, place, placed, found)?;
    push_missing(alloc, index, placed, found)?;
    push_single(index, placed, found)
}

impl Refusal<'_> {
    // How many checks `systools` has made before the one that refuses this.
    fn checks_before(self) -> u32
        ensures { result ≡ checks_before (refusal_of self.entry) }
    {
        match self {
            Refusal::NoTime(_) => 0,
            Refusal::NotFetched(_) => 1,
            Refusal::NotResumed(_) => 2,
            Refusal::NotSuspended(_) => 3,
            Refusal::NotStopped(_) => 4,
            Refusal::NotStarted(_) => 5,
            Refusal::NotRemoved(_) => 6,
            Refusal::NotAlone(_) => 7,
            Refusal::NotChanged(_) => 8,
            Refusal::NotOneVersion(_) | Refusal::NotOfTarget(_) => 9,
        }
    }
}

fn is_earlier(finding: &Finding<'_>, earliest: Option<Finding<'_>>) -> bool
    ensures { result ≡ is_earlier (finding_of finding.now) (option_map finding_of earliest.entry) }
{
    match earliest {
        Some(earliest) => finding.refusal.checks_before() < earliest.refusal.checks_before(),
        None => true,
    }
}

// The first of the earliest check.
fn earliest<'a>(found: &[Finding<'a>]) -> Option<Finding<'a>>
    ensures { IsReported (all_findings found.now) (option_map finding_of result) }
{
    let mut earliest = None;
    for finding in found {
        if is_earlier(finding, earliest) {
            earliest = Some(*finding);
        }
    }
    earliest
}
