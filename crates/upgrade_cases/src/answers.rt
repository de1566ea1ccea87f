//! The answer to a case.
use crate::texts::push_relup;
use crate::{appups, lints, made_relups, patterns, relups, relups_of_files, tables};
use appup_file::read_appup;
use mod_table::read_mod;
use relup_file::read_relup;
use relup_instruction::Direction;
use std::alloc::{AllocError, Global};
use text_cases::Answer;

/// The answer in one of 23 modes. A text that can't be read is answered by its fault.
///
/// `mod`: the table of a file. `term`: the same, read again from the file's term. `step`: what comes of a call; the text is a
/// state, an input and a file. `change`: the state after a change of code; the text is a direction, a version, an extra
/// term, a state and a file. These two ask the file's worker, and a copy of it.
///
/// `relup`: the text that a file's relup is printed as. `script`: that of a file whose only upgrade has these instructions.
/// `check`: whether such instructions can be run. `find`: the script that is found; the text is the version of a target,
/// that of the running release, and their relups, of which one can be empty, with blanks and a bar between.
///
/// `appup`: the version of a file's appup, and of each entry the version and the number of instructions. `instrs`: all that
/// is read of the instructions of a file's only upgrade. `up`, `down`: the instructions that are found; the text is a
/// version and a file with a blank between. `match_up`, `match_down`: the same, where a version may be a pattern.
///
/// `translate`, `translate_up`, `translate_down`: the relup that is made of releases, or of instructions, as in
/// [`made_relups`]. `by_patterns`: the relup that is made of releases whose appups may have patterns. `lint`: what is refused of
/// instructions before, as in [`lints`]. The modes of files are those of [`relups_of_files::push_answer`].
pub(crate) fn answer(alloc: Global, mode: &str, text: &[u8]) -> Result<String, AllocError> {
    let mut answer = Answer::new(alloc);
    let words = str::from_utf8(text).unwrap_or("");
    push_read(alloc, mode, text, words, &mut answer);
    answer.finish()
}

// The answer in the modes that read files, of which those in the next function have cases that are UTF-8.
fn push_read(alloc: Global, mode: &str, text: &[u8], words: &str, answer: &mut Answer) {
    match mode {
        "mod" => tables::push_read(&read_mod(alloc, text), answer),
        "term" => tables::push_read(&tables::of_the_term(alloc, text), answer),
        "relup" => push_relup(alloc, &read_relup(alloc, text), answer),
        "script" => push_relup(alloc, &relups::with_script(alloc, text), answer),
        "check" => relups::push_checked(&relups::with_script(alloc, text), answer),
        "appup" => appups::push_read(&read_appup(alloc, text), answer),
        "instrs" => appups::push_with_instrs(alloc, text, answer),
        "lint" => lints::push_linted(alloc, text, answer),
        "by_patterns" => patterns::push_made(alloc, text, answer),
        "translate" => made_relups::push_made(alloc, text, answer),
        "translate_up" => made_relups::push_with_instrs(alloc, Direction::Up, text, answer),
        "translate_down" => made_relups::push_with_instrs(alloc, Direction::Down, text, answer),
        _ => push_of_words(alloc, mode, words, answer),
    }
}

fn push_of_words(alloc: Global, mode: &str, words: &str, answer: &mut Answer) {
    match mode {
        "step" => tables::push_step(alloc, words, answer),
        "ticks" => tables::push_ticks(alloc, words, answer),
        "change" => tables::push_change(alloc, words, answer),
        "find" => relups::push_search(alloc, words, answer),
        "up" => appups::push_searched(alloc, Direction::Up, words, answer),
        "down" => appups::push_searched(alloc, Direction::Down, words, answer),
        "match_up" => patterns::push_matched(alloc, Direction::Up, words, answer),
        "match_down" => patterns::push_matched(alloc, Direction::Down, words, answer),
        _ => relups_of_files::push_answer(alloc, mode, words, answer),
    }
}
