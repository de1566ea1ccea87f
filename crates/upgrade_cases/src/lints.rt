//! What is refused of scripts before they are translated.
use crate::release_terms::OfTerm;
use appup_file::AppupFault;
use rel_files::read_one_term;
use relup_instruction::Direction;
use relup_lint::{Finding, PlacedInstr, TargetApp, findings, first_finding, push_entry};
use relup_translate::RelupRelease;
use std::alloc::{AllocError, Global};
use text_cases::{Answer, enclosed};

// What stands before and after the instructions.
const BEFORE: &[u8] =
    b"{\"B\",\"14\",[{k,\"2\",permanent,{[k1,k2],{\"2\",[{\"1\",[{load_module,k2}]}],[]}}},{a,\"2\",permanent,{[a,b,c,d],{\"2\",[{\"1\",[";

const BEHIND: &[u8] = b"]}],[]}}},{n,\"1\",permanent,{[n1],none}}]}.";

/// Appends what is refused of these instructions for an application `a` with the modules a, b, c, d, after the one that loads k2
/// of an application `k`; the target also has an application `n` with the module n1. Then comes what is refused first.
pub(crate) fn push_linted(alloc: Global, row: &[u8], answer: &mut Answer) {
    match enclosed(alloc, BEFORE, row, BEHIND) {
        Ok(file) => match release_of(alloc, &file) {
            Ok(release) => {
                let done = push_findings(alloc, &release, answer);
                answer.note(done);
            }
            Err(fault) => answer.push_shown(&fault),
        },
        Err(_) => answer.note_no_memory(),
    }
}

fn release_of(alloc: Global, file: &[u8]) -> Result<RelupRelease, AppupFault> {
    let file = read_one_term(alloc, file)?;
    RelupRelease::of_term(alloc, &file.term)
}

fn push_findings(
    alloc: Global,
    release: &RelupRelease,
    answer: &mut Answer,
) -> Result<(), AllocError> {
    let mut script = Vec::new(alloc);
    let mut target = Vec::new(alloc);
    for app in &release.apps {
        target.push(TargetApp {
            name: app.name.as_str(),
            vsn: app.vsn.as_str(),
            modules: app.modules.as_slice(),
        })?;
        if let Some(appup) = &app.appup {
            if let Ok(instrs) = appup.entry_for("1", Direction::Up) {
                push_entry(app.name.as_str(), instrs, &mut script)?;
            }
        }
    }
    push_found(alloc, &script, &target, answer)
}

fn push_found(
    alloc: Global,
    script: &[PlacedInstr<'_>],
    target: &[TargetApp<'_>],
    answer: &mut Answer,
) -> Result<(), AllocError> {
    for finding in &findings(alloc, script, target)? {
        push_finding(finding, answer);
        answer.push("; ");
    }
    answer.push("first ");
    match first_finding(alloc, script, target)? {
        Some(finding) => push_finding(&finding, answer),
        None => answer.push("none"),
    }
    Ok(())
}

fn push_finding(finding: &Finding<'_>, answer: &mut Answer) {
    answer.push(finding.app);
    answer.push_counted(" ", finding.number as u64);
    answer.push(" ");
    answer.push_shown(&finding.refusal);
}
