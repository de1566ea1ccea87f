//! Lists of releases, as records of a store make them.
ghost use Rattle.rel_records.specs.Lists.{HaveVersions};

use crate::lists::{event, push_list};
use record_writer::change_body;
use rel_list::{Event, ReleaseList};
use rel_records::laws::records_make_versions;
use rel_records::read_list;
use std::alloc::{AllocError, Global};
use text_cases::Answer;

/// The list that these bodies of a store of this format make, each on a line of its own, or which one is bad. Where the words are
/// those of an event, the body of the record that it writes after this list.
pub(crate) fn push_behind(
    alloc: Global,
    format: u8,
    bodies: &str,
    words: &str,
    answer: &mut Answer,
) {
    let mut lines = Vec::new(alloc);
    for line in bodies.split('\n') {
        answer.note(push_line(alloc, line, &mut lines));
    }
    push_behind_lines(alloc, format, lines.as_slice(), words, answer);
}

// Adds the bytes of a line.
pub(crate) fn push_line(
    alloc: Global,
    line: &str,
    lines: &mut Vec<Vec<u8>>,
) -> Result<(), AllocError> {
    Ok(lines.push(Vec::from_slice(alloc, line.as_bytes())?)?)
}

fn push_behind_lines(
    alloc: Global,
    format: u8,
    bodies: &[Vec<u8>],
    words: &str,
    answer: &mut Answer,
) {
    records_make_versions();
    match read_list(alloc, format, bodies) {
        Ok(list) => push_behind_list(alloc, &list, words, answer),
        Err(error) => answer.push_shown(&error),
    }
}

fn push_behind_list(alloc: Global, list: &ReleaseList, words: &str, answer: &mut Answer)
    requires { HaveVersions list.now }
{
    match event(alloc, list, words) {
        Some(event) => push_body(alloc, list, &event, answer),
        None => push_list(alloc, list, answer),
    }
}

/// The body of the record that the event on the first line writes after the list that the other lines make.
pub(crate) fn push_written(alloc: Global, text: &str, answer: &mut Answer) {
    match text.split_once('\n') {
        Some((words, bodies)) => push_behind(alloc, 2, bodies, words, answer),
        None => answer.push("no list"),
    }
}

fn push_body(alloc: Global, list: &ReleaseList, event: &Event, answer: &mut Answer)
    requires { HaveVersions list.now }
{
    if let Some(error) = list.refusal(event) {
        return answer.push_shown(&error);
    }
    match event {
        Event::Made(_) | Event::Unpacked(_) => answer.push("brings a release"),
        event => answer.push_made(&change_body(alloc, list, event)),
    }
}
