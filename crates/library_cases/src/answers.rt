//! The answer to a case.
use crate::{apps, checks, kept, libraries, lists, records, release_files, relups, terms};
use rel_files::{read_app, read_rel};
use std::alloc::{AllocError, Global};
use text_cases::Answer;

/// The answer in one of twenty-six modes. A text that can't be read is answered by its fault.
///
/// `terms`: each term of the text, with the places where it begins and ends. `record`: the one term of a record's body.
/// `print`: that term as it is printed. `prefixes`: how many terms each prefix of the text has.
///
/// `rel`: the release of a file. `term`: the same, read again from the file's term. `apps`: the release of a file with
/// these applications. `app`, `app_term`, `app_whole`: the application of a file, the same from its term, and this term.
///
/// `events`: what a list that is empty at first answers to these events, and the list then with its libraries. `readers`: what each
/// reader of such a list gives before the first event, and after the answer to each.
///
/// `bodies`: the list that the bodies of records make, each on a line of its own, or which one is bad. `written`: the body
/// that the event on the first line writes after the list of the other lines. `kept`: the bodies of the records that bring
/// releases, and the relups of the list that they make.
///
/// The others are those of the files of a release: of [`libraries`], of [`relups`] and of [`checks::push_answer`].
pub(crate) fn answer(alloc: Global, mode: &str, text: &[u8]) -> Result<String, AllocError> {
    let mut answer = Answer::new(alloc);
    push_answer(alloc, mode, text, &mut answer);
    answer.finish()
}

fn push_answer(alloc: Global, mode: &str, text: &[u8], answer: &mut Answer) {
    match mode {
        "terms" => terms::push_terms(alloc, text, answer),
        "record" => terms::push_record(alloc, text, answer),
        "print" => terms::push_printed(alloc, text, answer),
        "prefixes" => terms::push_prefixes(alloc, text, answer),
        "rel" => release_files::push_read(read_rel(alloc, text), answer),
        "term" => release_files::push_read(release_files::of_the_term(alloc, text), answer),
        "apps" => release_files::push_with_apps(alloc, text, answer),
        "app" => apps::push_read(read_app(alloc, text), answer),
        "app_term" => apps::push_read(apps::of_the_term(alloc, text), answer),
        "app_whole" => apps::push_whole(alloc, text, answer),
        _ => push_of_text(alloc, mode, str::from_utf8(text).unwrap_or(""), answer),
    }
}

// The answer in the modes whose cases are UTF-8.
fn push_of_text(alloc: Global, mode: &str, text: &str, answer: &mut Answer) {
    match mode {
        "events" => lists::push_followed(alloc, false, text, answer),
        "readers" => lists::push_followed(alloc, true, text, answer),
        "bodies" => records::push_behind(alloc, 2, text, "", answer),
        "bodies_1" => records::push_behind(alloc, 1, text, "", answer),
        "written" => records::push_written(alloc, text, answer),
        "kept" => kept::push_kept(alloc, text, answer),
        "differs" => libraries::push_difference(alloc, text, answer),
        "twice" => libraries::push_compared(alloc, text, text, answer),
        "relup" => relups::push_beside(alloc, text, answer),
        "scripts" => relups::push_made(alloc, text, answer),
        "release" | "unpack" | "check" => libraries::push_answer(alloc, mode, text, answer),
        _ => checks::push_answer(alloc, mode, text, answer),
    }
}
