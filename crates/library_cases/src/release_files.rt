//! Release files, as `rel_files` reads them.
use rel_files::{FileFault, Rel, RelApp, read_rel, read_rel_file, rel_of_term};
use std::alloc::Global;
use text_cases::{Answer, enclosed};

/// Reads the file's term again.
pub(crate) fn of_the_term(alloc: Global, file: &[u8]) -> Result<Rel, FileFault> {
    let read = read_rel_file(alloc, file)?;
    rel_of_term(alloc, &read.term, 0)
}

/// Appends the release of a file with these applications, or the fault.
pub(crate) fn push_with_apps(alloc: Global, apps: &[u8], answer: &mut Answer) {
    match enclosed(
        alloc,
        b"{release,{\"r\",\"1\"},{erts,\"2\"},[",
        apps,
        b"]}.",
    ) {
        Ok(file) => push_read(read_rel(alloc, &file), answer),
        Err(_) => answer.note_no_memory(),
    }
}

/// Appends the release, or the fault.
pub(crate) fn push_read(read: Result<Rel, FileFault>, answer: &mut Answer) {
    match read {
        Ok(rel) => push_release(&rel, answer),
        Err(fault) => push_fault(&fault, answer),
    }
}

/// Appends the fault of a file.
pub(crate) fn push_fault(fault: &FileFault, answer: &mut Answer) {
    answer.push_shown(fault);
    if let FileFault::Duplicate(name) = fault {
        answer.push_after(" ", name.as_str());
    }
}

// Appends the name and the versions of a release, and its applications.
fn push_release(release: &Rel, answer: &mut Answer) {
    answer.push_after(release.name.as_str(), " ");
    answer.push_after(release.vsn.as_str(), " ");
    answer.push(release.erts.as_str());
    for app in &release.apps {
        push_app(app, answer);
    }
}

// Appends an application, and the included ones where the file lists them.
fn push_app(app: &RelApp, answer: &mut Answer) {
    answer.push_after("; ", app.name.as_str());
    answer.push_after(" ", app.vsn.as_str());
    answer.push(" ");
    answer.push_debug(&app.start);
    if let Some(names) = &app.included {
        push_names(names.as_slice(), answer);
    }
}

/// Appends names in brackets.
pub(crate) fn push_names(names: &[String], answer: &mut Answer) {
    answer.push(" [");
    let mut gap = "";
    for name in names {
        answer.push_after(gap, name.as_str());
        gap = ",";
    }
    answer.push("]");
}
