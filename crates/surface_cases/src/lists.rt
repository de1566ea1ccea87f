//! The list of releases: `rel_list`.
use erl_term::read_record;
use library::{Library, libraries_of_terms};
use rel_files::parts::list_in;
use rel_files::{Rel, read_rel};
use rel_list::{Bundle, Event, ListError, ReleaseList};
use std::alloc::Global;
use std::rc::Rc;
use text_cases::{Answer, first_word};

/// Appends what an empty list answers to some events, parted by `, `, and what it is after them.
///
/// `made VSN WORD` and `unpacked VSN WORD` bring a release with the library `x` of version 1, which the word describes. `installed`,
/// `permanent`, `removed` and `reboot_old` name a version, and `boot` none.
pub(crate) fn push_events(alloc: Global, words: &str, answer: &mut Answer) {
    let mut list = ReleaseList::new(alloc);
    for words in words.split(", ") {
        match event_of(alloc, words) {
            Some(event) => push_accepted(list.accept(alloc, event), answer),
            None => answer.push("no event"),
        }
        answer.push("; ");
    }
    push_list(alloc, &list, answer);
}

fn event_of(alloc: Global, words: &str) -> Option<Event> {
    let (word, rest) = first_word(words);
    match word {
        "made" => Some(Event::Made(release_of(alloc, rest)?)),
        "unpacked" => Some(Event::Unpacked(release_of(alloc, rest)?)),
        "boot" => Some(Event::Boot),
        _ => event_of_listed(word, String::from_str(alloc, rest).ok()?),
    }
}

fn event_of_listed(word: &str, vsn: String) -> Option<Event> {
    match word {
        "installed" => Some(Event::Installed(vsn)),
        "permanent" => Some(Event::MadePermanent(vsn)),
        "removed" => Some(Event::Removed(vsn)),
        "reboot_old" => Some(Event::RebootOld(vsn)),
        _ => None,
    }
}

fn release_of(alloc: Global, words: &str) -> Option<Bundle> {
    let (vsn, word) = first_word(words);
    let mut file = Answer::new(alloc);
    file.push_after("{release,{\"r\",\"", vsn);
    file.push("\"},{erts,\"14.2\"},[{x,\"1\"}]}.");
    Some(Bundle {
        release: read_rel(alloc, file.text.as_bytes()).ok()?,
        libraries: libraries_of(alloc, word)?,
        relup: None,
    })
}

fn libraries_of(alloc: Global, word: &str) -> Option<Vec<Rc<Library>>> {
    let mut terms = Answer::new(alloc);
    terms.push_after("[{lib,{application,x,[{vsn,\"1\"},{description,", word);
    terms.push("}]},[]}].");
    let term = read_record(alloc, terms.text.as_bytes()).ok()?;
    libraries_of_terms(alloc, list_in(&term)?).ok()?
}

fn push_accepted(accepted: Result<(), ListError>, answer: &mut Answer) {
    match accepted {
        Ok(()) => answer.push("ok"),
        Err(error) => push_refusal(&error, answer),
    }
}

fn push_refusal(error: &ListError, answer: &mut Answer) {
    match error {
        ListError::BadStatus(status) => answer.push_after("BadStatus ", status.as_str()),
        ListError::NoMemory => answer.note_no_memory(),
        other => answer.push_debug(other),
    }
}

fn push_list(alloc: Global, list: &ReleaseList, answer: &mut Answer) {
    for listed in list.releases() {
        answer.push_after(listed.release.vsn.as_str(), " ");
        match list.status(listed.release.vsn.as_str()) {
            Some(status) => answer.push_after(status.as_str(), ", "),
            None => answer.push("no status, "),
        }
    }
    push_version("permanent ", list.permanent(), answer);
    push_version(", running ", list.running(), answer);
    answer.push_after(", a boot changes ", list.boot_events().unwrap_or("none"));
    push_libraries(alloc, list, answer);
}

fn push_version(before: &str, release: Option<&Rel>, answer: &mut Answer) {
    answer.push(before);
    match release {
        Some(release) => answer.push(release.vsn.as_str()),
        None => answer.push("none"),
    }
}

fn push_libraries(alloc: Global, list: &ReleaseList, answer: &mut Answer) {
    let Ok(libraries) = list.libs(alloc) else {
        return answer.note_no_memory();
    };
    answer.push(", libraries");
    for library in libraries {
        answer.push_after(" ", library.app.name.as_str());
        answer.push_after("-", library.app.vsn.as_str());
    }
}
