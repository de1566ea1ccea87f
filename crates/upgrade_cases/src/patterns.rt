//! Appups whose versions may be patterns.
use crate::appup_texts::push_instrs;
use crate::made_relups::releases_of;
use appup_file::read_appup;
use appup_match::entry_matching;
use rel_files::read_one_term;
use relup_by_patterns::{BadPattern, ByPatternsError, PatternError, make_relup_by_patterns};
use relup_file::print_relup;
use relup_instruction::Direction;
use relup_translate::RelupRelease;
use std::alloc::Global;
use text_cases::{Answer, first_word};

/// Appends what is found for a version, with the file after it.
pub(crate) fn push_matched(alloc: Global, direction: Direction, text: &str, answer: &mut Answer) {
    let (vsn, file) = first_word(text);
    match read_appup(alloc, file.as_bytes()) {
        Ok(appup) => match entry_matching(alloc, &appup, vsn, direction) {
            Ok(instrs) => push_instrs(alloc, instrs, answer),
            Err(fault) => answer.push_debug(&fault),
        },
        Err(fault) => answer.push_shown(&fault),
    }
}

/// Appends the relup of releases that a term gives, or the reason why there is none.
pub(crate) fn push_made(alloc: Global, text: &[u8], answer: &mut Answer) {
    match read_one_term(alloc, text) {
        Ok(file) => match releases_of(alloc, &file.term) {
            Ok((new, ups, downs)) => push_of_releases(alloc, &new, &ups, &downs, answer),
            Err(fault) => answer.push_shown(&fault),
        },
        Err(fault) => answer.push_shown(&fault),
    }
}

fn push_of_releases(
    alloc: Global,
    new: &RelupRelease,
    ups: &[RelupRelease],
    downs: &[RelupRelease],
    answer: &mut Answer,
) {
    match make_relup_by_patterns(alloc, new, ups, downs) {
        Ok(relup) => answer.push_made(&print_relup(alloc, &relup)),
        Err(ByPatternsError::Translation(fault)) => answer.push_shown(&fault),
        Err(ByPatternsError::Patterns(PatternError::BadPattern(bad))) => push_bad(&bad, answer),
        Err(ByPatternsError::Patterns(PatternError::NoMemory)) => answer.note_no_memory(),
    }
}

// The application, the direction and the place of a pattern, and its fault.
fn push_bad(bad: &BadPattern, answer: &mut Answer) {
    answer.push(bad.app.as_str());
    answer.push_counted(
        match bad.direction {
            Direction::Up => " up ",
            Direction::Down => " down ",
        },
        bad.place as u64,
    );
    answer.push(" ");
    answer.push_debug(&bad.fault);
}
