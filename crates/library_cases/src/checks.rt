//! What is wrong with a release.
use crate::libraries;
use crate::made_files::{push_modules, push_tree, push_worker};
use rel_check::{Named, ReleaseFault, check_release};
use rel_files::RelApp;
use rel_unpack::ApplicationFiles;
use std::alloc::Global;
use text_cases::{Answer, first_word, number};

/// The answer in one of four modes, which make the files of the release that is checked. `tree`: the text is a width and a
/// depth, as in [`push_tree`]. `lost`: the same without the worker's file. `modules`: the text is a number of modules.
/// `rows`: it is a number of rows in the worker's table.
pub(crate) fn push_answer(alloc: Global, mode: &str, text: &str, answer: &mut Answer) {
    let (first, second) = first_word(text);
    let mut files = Answer::new(alloc);
    push_files(mode, number(first), number(second), &mut files);
    match files.finish() {
        Ok(files) => libraries::push_answer(alloc, "check", files.as_str(), answer),
        Err(_) => answer.note_no_memory(),
    }
}

fn push_files(mode: &str, first: usize, second: usize, files: &mut Answer) {
    match mode {
        "modules" => push_modules(first, files),
        "lost" => push_tree(first, second, files),
        "rows" => {
            push_tree(1, 1, files);
            push_worker(first, files);
        }
        _ => {
            push_tree(first, second, files);
            push_worker(1, files);
        }
    }
}

/// Appends what is wrong with the files of a release's applications, or with the release.
pub(crate) fn push_checked(
    alloc: Global,
    apps: &[RelApp],
    read: &ApplicationFiles,
    answer: &mut Answer,
) {
    if let Some(why) = &read.refusal {
        return answer.push_shown(why);
    }
    match check_release(alloc, apps, read.libraries.as_slice()) {
        Ok(()) => answer.push("ok"),
        Err(fault) => push_fault(fault, answer),
    }
}

fn push_fault(fault: ReleaseFault<'_>, answer: &mut Answer) {
    match fault {
        ReleaseFault::ModuleTwice(found) => push_named("module ", found, answer),
        ReleaseFault::IdTwice(found) => push_named("id ", found, answer),
        ReleaseFault::NoTable(name) => answer.push_after("NoTable ", name),
        ReleaseFault::TooMany => answer.push("TooMany"),
        ReleaseFault::NoMemory => answer.push("NoMemory"),
    }
}

fn push_named(kind: &str, found: Named<'_>, answer: &mut Answer) {
    answer.push_after(kind, found.name);
    answer.push_after(" twice, ", found.app.name.as_str());
    answer.push_after("-", found.app.vsn.as_str());
}
