//! Lists of releases, as they follow events.
use crate::bundles::{bundle, push_libraries};
use crate::readers::{push_at_end, push_readers};
use rel_files::Rel;
use rel_list::{Event, ListError, ReleaseList};
use std::alloc::Global;
use text_cases::{Answer, first_word};

/// What a list that is empty at first answers to these events, and the list after them. Where it `is_read`, what each reader
/// gives stands before each event and at the end.
pub(crate) fn push_followed(alloc: Global, is_read: bool, events: &str, answer: &mut Answer) {
    let mut list = ReleaseList::new(alloc);
    push_events(alloc, is_read, &mut list, events, answer);
    push_end(alloc, is_read, &list, answer);
}

fn push_end(alloc: Global, is_read: bool, list: &ReleaseList, answer: &mut Answer) {
    if is_read {
        push_at_end(list, answer);
    } else {
        push_list(alloc, list, answer);
    }
}

fn push_events(
    alloc: Global,
    is_read: bool,
    list: &mut ReleaseList,
    events: &str,
    answer: &mut Answer,
) {
    for words in events.split(", ") {
        if is_read {
            push_readers(list, answer);
        }
        push_event(alloc, list, words, answer);
    }
}

// Gives the list the event of these words, and appends the list's answer.
fn push_event(alloc: Global, list: &mut ReleaseList, words: &str, answer: &mut Answer) {
    match event(alloc, list, words) {
        Some(event) => push_taken(list.accept(alloc, event), answer),
        None => answer.push("no such event, "),
    }
}

fn push_taken(taken: Result<(), ListError>, answer: &mut Answer) {
    match taken {
        Ok(()) => answer.push("ok"),
        Err(error) => answer.push_shown(&error),
    }
    answer.push(", ");
}

/// The event of these words: its name, and the version of its release, or the release of the words after it. Nothing where
/// there is none, or no memory is left.
pub(crate) fn event(alloc: Global, list: &ReleaseList, words: &str) -> Option<Event> {
    let (word, rest) = first_word(words);
    match word {
        "made" => Some(Event::Made(bundle(alloc, list, rest)?)),
        "unpacked" => Some(Event::Unpacked(bundle(alloc, list, rest)?)),
        _ => of_version(word, String::from_str(alloc, rest).ok()?),
    }
}

// The event of a release that is listed, by its version, or the boot.
fn of_version(word: &str, vsn: String) -> Option<Event> {
    match word {
        "installed" => Some(Event::Installed(vsn)),
        "restarted" => Some(Event::RestartInstalled(vsn)),
        "permanent" => Some(Event::MadePermanent(vsn)),
        "removed" => Some(Event::Removed(vsn)),
        "reboot_old" => Some(Event::RebootOld(vsn)),
        "boot" => Some(Event::Boot),
        _ => None,
    }
}

/// The list, each release with the status that is found for its version, and what else is asked of it.
pub(crate) fn push_list(alloc: Global, list: &ReleaseList, answer: &mut Answer) {
    for listed in list.releases() {
        push_status(list, listed.release.vsn.as_str(), answer);
    }
    push_length(list, answer);
    push_current(list, answer);
    answer.push_after("a boot changes ", list.boot_events().unwrap_or("none"));
    push_libraries(alloc, list, answer);
}

/// The status that is found for a version.
pub(crate) fn push_status(list: &ReleaseList, vsn: &str, answer: &mut Answer) {
    answer.push_after(vsn, " ");
    answer.push_debug(&list.status(vsn));
    answer.push(", ");
}

/// How many releases the list has.
pub(crate) fn push_length(list: &ReleaseList, answer: &mut Answer) {
    answer.push("len ");
    answer.push_number(list.len() as u64);
    answer.push(", ");
}

/// The permanent release and the one that runs.
pub(crate) fn push_current(list: &ReleaseList, answer: &mut Answer) {
    answer.push_after("permanent ", version(list.permanent()));
    answer.push_after(", runs ", version(list.running()));
    answer.push(", ");
}

fn version(release: Option<&Rel>) -> &str {
    match release {
        Some(release) => release.vsn.as_str(),
        None => "none",
    }
}
