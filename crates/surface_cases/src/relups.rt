//! Relups: `relup_file` and `relup_translate`.
use crate::terms::push_term;
use appup_file::{Appup, read_appup};
use rel_files::StartType;
use relup_file::{
    Direction, Found, NoMatchingRelup, RelupFault, ScriptFault, check, find_script, print_relup,
    read_relup,
};
use relup_translate::{ModuleNames, RelupApp, RelupRelease, make_relup};
use std::alloc::{AllocError, Global};
use text_cases::{Answer, first_word};

/// Appends the relup of a file, printed, or the file's fault.
pub(crate) fn push_relup(alloc: Global, bytes: &[u8], answer: &mut Answer) {
    match read_relup(alloc, bytes) {
        Ok(relup) => answer.push_made(&print_relup(alloc, &relup)),
        Err(fault) => push_fault(fault, answer),
    }
}

fn push_fault(fault: RelupFault, answer: &mut Answer) {
    match fault {
        RelupFault::BadTerm(fault) => {
            answer.push("BadTerm ");
            answer.push_shown(&fault);
        }
        RelupFault::BadShape(entry) => answer.push_counted("BadShape ", entry as u64),
        RelupFault::NoMemory => answer.note_no_memory(),
    }
}

/// Appends what the check says of each script of a relup's upgrades.
pub(crate) fn push_check(alloc: Global, bytes: &[u8], answer: &mut Answer) {
    match read_relup(alloc, bytes) {
        Ok(relup) => {
            for entry in relup.ups.as_slice() {
                push_checked(check(&entry.script), answer);
                answer.push("; ");
            }
        }
        Err(fault) => push_fault(fault, answer),
    }
}

fn push_checked(checked: Result<(), ScriptFault>, answer: &mut Answer) {
    match checked {
        Ok(()) => answer.push("ok"),
        Err(ScriptFault::NoPoint) => answer.push("NoPoint"),
        Err(ScriptFault::TwoPoints) => answer.push("TwoPoints"),
        Err(ScriptFault::Misplaced(instr)) => answer.push_counted("Misplaced ", instr as u64),
        Err(ScriptFault::Unsupported(instr)) => answer.push_counted("Unsupported ", instr as u64),
    }
}

/// Appends the script from a running release to another one. The text is the version of the target and its relup, and that of the
/// running release and its relup, parted by ` | `. A relup that can't be read is none.
pub(crate) fn push_found(alloc: Global, words: &str, answer: &mut Answer) {
    let (target, running) = words.split_once(" | ").unwrap_or((words, ""));
    let (target, target_relup) = first_word(target);
    let (running, running_relup) = first_word(running);
    let target_relup = read_relup(alloc, target_relup.as_bytes()).ok();
    let running_relup = read_relup(alloc, running_relup.as_bytes()).ok();
    let found = find_script(
        target,
        target_relup.as_ref(),
        running,
        running_relup.as_ref(),
    );
    push_script(alloc, found, answer);
}

fn push_script(alloc: Global, found: Result<Found<'_>, NoMatchingRelup>, answer: &mut Answer) {
    match found {
        Ok(found) => {
            answer.push_after(found.other, " ");
            push_term(alloc, found.descr, answer);
            answer.push_counted(" ", found.script.len() as u64);
            answer.push(match found.direction {
                Direction::Up => " Up",
                Direction::Down => " Down",
            });
        }
        Err(NoMatchingRelup) => answer.push("NoMatchingRelup"),
    }
}

/// Appends the relup of a release B from a release A, up and down, or why there is none. The text is the appup of their application
/// `ch_app` in its version 2, which has the modules that version 1 has.
pub(crate) fn push_made(alloc: Global, appup: &str, answer: &mut Answer) {
    let (Ok(new), Ok(old)) = (
        release(alloc, "B", "2", read_appup(alloc, appup.as_bytes()).ok()),
        release(alloc, "A", "1", None),
    ) else {
        return answer.note_no_memory();
    };
    let others = [old];
    match make_relup(alloc, &new, &others, &others) {
        Ok(relup) => answer.push_made(&print_relup(alloc, &relup)),
        Err(error) => answer.push_shown(&error),
    }
}

fn release(
    alloc: Global,
    vsn: &str,
    app_vsn: &str,
    appup: Option<Appup>,
) -> Result<RelupRelease, AllocError> {
    let mut apps = Vec::new(alloc);
    apps.push(application(alloc, app_vsn, appup)?)?;
    Ok(RelupRelease {
        vsn: String::from_str(alloc, vsn)?,
        erts: String::from_str(alloc, "14.2")?,
        apps,
    })
}

fn application(alloc: Global, vsn: &str, appup: Option<Appup>) -> Result<RelupApp, AllocError> {
    Ok(RelupApp {
        name: String::from_str(alloc, "ch_app")?,
        vsn: String::from_str(alloc, vsn)?,
        start: StartType::Permanent,
        modules: ModuleNames::new(alloc, modules(alloc)?)?,
        appup,
    })
}

fn modules(alloc: Global) -> Result<Vec<String>, AllocError> {
    let mut names = Vec::new(alloc);
    for name in ["ch_sup", "ch3", "aux"] {
        names.push(String::from_str(alloc, name)?)?;
    }
    Ok(names)
}
