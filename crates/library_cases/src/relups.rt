//! The relup beside a release's file.
use crate::made_files::push_scripts;
use rel_unpack::{ReleaseFiles, unpack_release};
use relup_file::RelupFile;
use std::alloc::Global;
use text_cases::{Answer, CaseFiles, first_word, number};

/// The relup of the release whose file has the path of the first line; the other lines are the files. Where the release is
/// refused, for its applications or for its relup, the answer says why.
pub(crate) fn push_beside(alloc: Global, text: &str, answer: &mut Answer) {
    let (path, files) = text.split_once('\n').unwrap_or((text, ""));
    let lines = files.as_bytes();
    match unpack_release(alloc, &CaseFiles { lines }, path) {
        Ok(read) => push_read(&read, answer),
        Err(error) => answer.push_shown(&error),
    }
}

/// The same of a release R, with a relup of two scripts. The text is how many instructions there are in the one up and in the
/// one down, and the version of the relup.
pub(crate) fn push_made(alloc: Global, text: &str, answer: &mut Answer) {
    let (up, rest) = first_word(text);
    let (down, vsn) = first_word(rest);
    let mut lines = Answer::new(alloc);
    lines.push("r.rel\n");
    push_scripts(number(up), number(down), vsn, &mut lines);
    match lines.finish() {
        Ok(lines) => push_beside(alloc, lines.as_str(), answer),
        Err(_) => answer.note_no_memory(),
    }
}

fn push_read(read: &ReleaseFiles, answer: &mut Answer) {
    if let Some(why) = &read.applications.refusal {
        answer.push_shown(why);
        answer.push(", ");
    }
    match &read.relup {
        Ok(Some(file)) => push_relup(file, answer),
        Ok(None) => answer.push("no relup"),
        Err(why) => answer.push_shown(why),
    }
}

fn push_relup(file: &RelupFile, answer: &mut Answer) {
    answer.push(file.relup.vsn.as_str());
    answer.push(" up ");
    answer.push_number(file.relup.ups.len() as u64);
    answer.push(" down ");
    answer.push_number(file.relup.downs.len() as u64);
}
