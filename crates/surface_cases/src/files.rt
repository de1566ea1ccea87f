//! Files of releases and of applications: `rel_files`.
use crate::terms::push_term;
use rel_files::{App, FileFault, Rel, RelApp, StartType, read_app, read_rel};
use std::alloc::Global;
use text_cases::Answer;

/// Appends the release of a file, or the file's fault.
pub(crate) fn push_rel(alloc: Global, bytes: &[u8], answer: &mut Answer) {
    match read_rel(alloc, bytes) {
        Ok(release) => push_release(&release, answer),
        Err(fault) => push_fault(&fault, answer),
    }
}

fn push_release(release: &Rel, answer: &mut Answer) {
    answer.push_after(release.name.as_str(), " ");
    answer.push_after(release.vsn.as_str(), " ");
    answer.push(release.erts.as_str());
    for app in release.apps.as_slice() {
        push_release_app(app, answer);
    }
}

fn push_release_app(app: &RelApp, answer: &mut Answer) {
    answer.push_after("; ", app.name.as_str());
    answer.push_after(" ", app.vsn.as_str());
    answer.push(match app.start {
        StartType::Permanent => " permanent",
        StartType::Transient => " transient",
        StartType::Temporary => " temporary",
        StartType::Load => " load",
        StartType::Unloaded => " none",
    });
    push_included(app, answer);
}

fn push_included(app: &RelApp, answer: &mut Answer) {
    match &app.included {
        Some(names) => push_names(" [", names.as_slice(), answer),
        None => answer.push(" no list"),
    }
}

fn push_names(before: &str, names: &[String], answer: &mut Answer) {
    answer.push(before);
    let mut between = "";
    for name in names {
        answer.push_after(between, name.as_str());
        between = ",";
    }
    answer.push("]");
}

/// Appends the application of a file, or the file's fault.
pub(crate) fn push_app(alloc: Global, bytes: &[u8], answer: &mut Answer) {
    match read_app(alloc, bytes) {
        Ok(app) => push_specification(alloc, &app, answer),
        Err(fault) => push_fault(&fault, answer),
    }
}

fn push_specification(alloc: Global, app: &App, answer: &mut Answer) {
    answer.push_after(app.name.as_str(), " ");
    answer.push(app.vsn.as_str());
    push_names(" [", app.modules.as_slice(), answer);
    answer.push(" ");
    match &app.top {
        Some(top) => answer.push(top.as_str()),
        None => answer.push("no top"),
    }
    answer.push(" ");
    push_term(alloc, &app.whole, answer);
}

/// Appends a fault of a file, as its variant says it.
pub(crate) fn push_fault(fault: &FileFault, answer: &mut Answer) {
    match fault {
        FileFault::BadTerm(fault) => {
            answer.push("BadTerm ");
            answer.push_shown(fault);
        }
        FileFault::BadShape(at) => answer.push_counted("BadShape ", *at as u64),
        FileFault::Duplicate(name) => answer.push_after("Duplicate ", name.as_str()),
        FileFault::BadVersion => answer.push("BadVersion"),
        FileFault::NoMemory => answer.note_no_memory(),
    }
}
