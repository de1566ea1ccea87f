//! Releases with libraries, as events bring them.
use erl_term::{Term, read_record};
use library::{Library, libraries_of_terms};
use rel_files::parts::list_in;
use rel_files::{Rel, rel_of_term};
use rel_list::{Bundle, ReleaseList};
use std::alloc::Global;
use std::rc::Rc;
use text_cases::{Answer, first_word};

/// The release of these words: its version, and an application with a version for each library, as `x-1`. With a stroke, as
/// `x-1/b`, it is another library than without, or with another letter. Where none differs, those of the list are shared.
///
/// Nothing where the words are none of a release, or no memory is left.
pub(crate) fn bundle(alloc: Global, list: &ReleaseList, words: &str) -> Option<Bundle> {
    let mut text = Answer::new(alloc);
    push_terms(words, &mut text);
    match read_record(alloc, text.text.as_bytes()) {
        Ok(term) => bundle_of_term(alloc, list, &term),
        Err(_) => None,
    }
}

// Appends a list of the release's term and those of its libraries.
fn push_terms(words: &str, text: &mut Answer) {
    let (vsn, libraries) = first_word(words);
    text.push_after("[{release,{\"r\",\"", vsn);
    text.push("\"},{erts,\"14.2\"},[]}");
    for word in libraries.split(' ') {
        push_library_term(word, text);
    }
    text.push("].");
}

fn push_library_term(word: &str, text: &mut Answer) {
    let (id, letter) = word.split_once('/').unwrap_or((word, "a"));
    if let Some((name, vsn)) = id.split_once('-') {
        text.push_after(",{lib,{application,", name);
        text.push_after(",[{vsn,\"", vsn);
        text.push_after("\"},{description,", letter);
        text.push("}]},[]}");
    }
}

fn bundle_of_term(alloc: Global, list: &ReleaseList, term: &Term) -> Option<Bundle> {
    let [release, libraries @ ..] = list_in(term)? else {
        return None;
    };
    Some(Bundle {
        release: rel_of_term(alloc, release, 0).ok()?,
        libraries: libraries_in(alloc, list, libraries)?,
        relup: None,
    })
}

fn libraries_in(alloc: Global, list: &ReleaseList, terms: &[Term]) -> Option<Vec<Rc<Library>>> {
    match libraries_of_terms(alloc, terms) {
        Ok(Some(libraries)) => kept(alloc, list, libraries),
        _ => None,
    }
}

// The libraries as the list is to keep them: its own where all agree with it, so that it is asked what differs.
fn kept(
    alloc: Global,
    list: &ReleaseList,
    libraries: Vec<Rc<Library>>,
) -> Option<Vec<Rc<Library>>> {
    if list.first_different(libraries.as_slice()).is_some() {
        return Some(libraries);
    }
    list.share(alloc, libraries).ok()
}

/// Appends the libraries of a list, as such words have them without their letters.
pub(crate) fn push_libraries(alloc: Global, list: &ReleaseList, answer: &mut Answer) {
    match list.libs(alloc) {
        Ok(libraries) => push_ids(libraries.as_slice(), answer),
        Err(_) => answer.note_no_memory(),
    }
}

fn push_ids(libraries: &[&Library], answer: &mut Answer) {
    for library in libraries {
        answer.push_after(", library ", library.app.name.as_str());
        answer.push_after("-", library.app.vsn.as_str());
    }
}

/// Whether it is the release of the version A as [`bundle`] makes it.
pub(crate) fn is_first(release: Option<&Rel>) -> bool {
    let Some(release) = release else {
        return false;
    };
    let texts = (
        release.name.as_str(),
        release.vsn.as_str(),
        release.erts.as_str(),
    );
    texts == ("r", "A", "14.2") && release.apps.is_empty()
}
