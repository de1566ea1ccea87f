//! Files of applications, as `rel_files` reads them.
use crate::release_files::{push_fault, push_names};
use erl_term::print;
use rel_files::{App, FileFault, app_of_term, read_app};
use std::alloc::Global;
use text_cases::Answer;

/// Reads the file's term again.
pub(crate) fn of_the_term(alloc: Global, file: &[u8]) -> Result<App, FileFault> {
    let read = read_app(alloc, file)?;
    app_of_term(alloc, read.whole.clone()?, 0)
}

/// Appends what a file says, or its fault.
pub(crate) fn push_read(read: Result<App, FileFault>, answer: &mut Answer) {
    match read {
        Ok(app) => push_app(&app, answer),
        Err(fault) => push_fault(&fault, answer),
    }
}

// The name, the version, the modules, and the module that starts it, if the file names one.
fn push_app(app: &App, answer: &mut Answer) {
    answer.push_after(app.name.as_str(), " ");
    answer.push(app.vsn.as_str());
    push_names(app.modules.as_slice(), answer);
    if let Some(top) = &app.top {
        answer.push_after("; starts ", top.as_str());
    }
}

/// Appends the whole term of a file, as it is printed, or its fault.
pub(crate) fn push_whole(alloc: Global, file: &[u8], answer: &mut Answer) {
    match read_app(alloc, file) {
        Ok(app) => answer.push_made(&print(alloc, &app.whole)),
        Err(fault) => push_fault(&fault, answer),
    }
}
