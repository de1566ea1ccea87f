//! Releases with relups, written to records and read back.
ghost use Rattle.std.specs.Prelude.{IfSome};
ghost use Rattle.std.specs.Option.{ForSome};
ghost use Rattle.erl_term.specs.Value.{value_of};
ghost use Rattle.erl_term.specs.Within.{IsWithin};

use crate::records::push_line;
use erl_term::Term;
use record_writer::{made_body, unpacked_body};
use rel_files::{RelFile, read_rel_file};
use rel_list::ReleaseList;
use rel_records::read_list;
use relup_file::{RelupFile, print_relup, read_relup_file};
use std::alloc::Global;
use text_cases::Answer;

/// The bodies of the records that bring releases without applications, one after another, and the relups of the list that
/// these make. A release is a line: its file, and after a stroke its relup's, if it has one.
pub(crate) fn push_kept(alloc: Global, text: &str, answer: &mut Answer) {
    let mut bodies = Vec::new(alloc);
    for line in text.split('\n') {
        push_brought(alloc, line, &mut bodies, answer);
    }
    match read_list(alloc, 2, bodies.as_slice()) {
        Ok(list) => push_relups(alloc, &list, answer),
        Err(error) => answer.push_shown(&error),
    }
}

// Adds the body of the record that brings the release of a line, and appends it.
fn push_brought(alloc: Global, line: &str, bodies: &mut Vec<Vec<u8>>, answer: &mut Answer) {
    let (rel, relup) = line.split_once(" | ").unwrap_or((line, ""));
    let Some(body) = body_behind(alloc, bodies.as_slice(), rel, relup) else {
        return answer.push("no release; ");
    };
    answer.push_after(body.as_str(), "; ");
    answer.note(push_line(alloc, body.as_str(), bodies));
}

// The body that brings the release of these files after these bodies. Nothing where they are none of a release.
fn body_behind(alloc: Global, bodies: &[Vec<u8>], rel: &str, relup: &str) -> Option<String> {
    if bodies.is_empty() {
        return first_body(alloc, rel, relup);
    }
    let list = read_list(alloc, 2, bodies).ok()?;
    further_body(alloc, &list, rel, relup)
}

fn first_body(alloc: Global, rel: &str, relup: &str) -> Option<String> {
    let relup = relup_in(alloc, relup)?;
    let RelFile { term, release: _ } = read_rel_file(alloc, rel.as_bytes()).ok()?;
    made_body(alloc, term, &[], relup).ok()
}

fn further_body(alloc: Global, list: &ReleaseList, rel: &str, relup: &str) -> Option<String> {
    let relup = relup_in(alloc, relup)?;
    let RelFile { term, release: _ } = read_rel_file(alloc, rel.as_bytes()).ok()?;
    unpacked_body(alloc, list, term, &[], relup).ok()
}

// The term of a relup's file. An empty text stands for none.
fn relup_in(alloc: Global, text: &str) -> Option<Option<Term>>
    ensures { IfSome result (λ o. ForSome o (λ term. IsWithin 65 (value_of term))) }
{
    if text.is_empty() {
        return Some(None);
    }
    let RelupFile { term, relup: _ } = read_relup_file(alloc, text.as_bytes()).ok()?;
    Some(Some(term))
}

// Each release with the text of its relup.
fn push_relups(alloc: Global, list: &ReleaseList, answer: &mut Answer) {
    let mut gap = "";
    for listed in list.releases() {
        let vsn = listed.release.vsn.as_str();
        answer.push_after(gap, vsn);
        answer.push(" ");
        match list.relup(vsn) {
            Some(relup) => answer.push_made(&print_relup(alloc, relup)),
            None => answer.push("none"),
        }
        gap = ", ";
    }
}
