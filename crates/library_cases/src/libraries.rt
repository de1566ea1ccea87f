//! A release, and the libraries of its applications.
use crate::checks::push_checked;
use erl_term::{Term, print};
use library::{Library, library_of_term};
use rel_files::{Rel, RelFile};
use rel_unpack::{ApplicationFiles, UnpackError, read_libraries, read_release};
use std::alloc::Global;
use std::rc::Rc;
use text_cases::{Answer, CaseFiles};

// What the files of a release give.
struct Unpacked {
    file: RelFile,
    read: ApplicationFiles,
}

// Let go by one call: a derived drop would stand field by field at each exit of a caller.
impl Drop for Unpacked {
    fn drop(self) {
        let Unpacked {
            file: _file,
            read: _read,
        } = self;
    }
}

/// The answer in one of three modes. A text is a line for each file: its path, a blank and its bytes. The release is that of
/// the file `r.rel`. `release`: the release. `unpack`: the libraries of its applications, after the refusal where a file isn't
/// taken. `check`: what is wrong with the release, or with one of its files.
pub(crate) fn push_answer(alloc: Global, mode: &str, text: &str, answer: &mut Answer) {
    if let Some(unpacked) = unpacked_or_fault(alloc, text, answer) {
        push_unpacked(alloc, mode, &unpacked, answer);
    }
}

// What the files give; where they aren't taken, the answer says why.
fn unpacked_or_fault(alloc: Global, text: &str, answer: &mut Answer) -> Option<Unpacked> {
    match read_files(alloc, text.as_bytes()) {
        Ok(unpacked) => Some(unpacked),
        Err(error) => {
            answer.push_shown(&error);
            None
        }
    }
}

fn read_files(alloc: Global, lines: &[u8]) -> Result<Unpacked, UnpackError> {
    let files = CaseFiles { lines };
    let file = read_release(alloc, &files, "r.rel")?;
    let read = read_libraries(alloc, &files, file.release.apps.as_slice())?;
    Ok(Unpacked { file, read })
}

fn push_unpacked(alloc: Global, mode: &str, unpacked: &Unpacked, answer: &mut Answer) {
    let release = &unpacked.file.release;
    match mode {
        "release" => push_release(release, answer),
        "unpack" => push_libraries(alloc, &unpacked.read, answer),
        _ => push_checked(alloc, release.apps.as_slice(), &unpacked.read, answer),
    }
}

fn push_release(release: &Rel, answer: &mut Answer) {
    answer.push_after(release.name.as_str(), " ");
    answer.push_after(release.vsn.as_str(), " with ");
    answer.push_number(release.apps.len() as u64);
}

// The refusal, if there is one, and each library as its record's term has it, once it was read back from this.
fn push_libraries(alloc: Global, read: &ApplicationFiles, answer: &mut Answer) {
    match &read.refusal {
        Some(why) => answer.push_shown(why),
        None => answer.push("ok"),
    }
    for library in &read.libraries {
        push_library(alloc, library, answer);
    }
}

fn push_library(alloc: Global, library: &Library, answer: &mut Answer) {
    match library.term(alloc) {
        Ok(term) => push_term(alloc, library, &term, answer),
        Err(_) => answer.note_no_memory(),
    }
}

fn push_term(alloc: Global, library: &Library, term: &Term, answer: &mut Answer) {
    if is_read_back(alloc, library, term) {
        answer.push(" ");
        answer.push_made(&print(alloc, term));
    } else {
        answer.push(" not read back");
    }
}

fn is_read_back(alloc: Global, library: &Library, term: &Term) -> bool {
    match library_of_term(alloc, term) {
        Ok(Some(again)) => again.is_same(library),
        _ => false,
    }
}

/// Whether the last library of the text up to a line `--` is the same as that of the text after it.
pub(crate) fn push_difference(alloc: Global, text: &str, answer: &mut Answer) {
    match text.split_once("\n--\n") {
        Some((old, new)) => push_compared(alloc, old, new, answer),
        None => answer.push("no library"),
    }
}

/// Whether the last library of the old files is the same as that of the new ones.
pub(crate) fn push_compared(alloc: Global, old: &str, new: &str, answer: &mut Answer) {
    if let Some(old) = unpacked_or_fault(alloc, old, answer) {
        if let Some(new) = unpacked_or_fault(alloc, new, answer) {
            push_last(&old.read, &new.read, answer);
        }
    }
}

// Whether the last libraries are the same, or why one isn't there.
fn push_last(old: &ApplicationFiles, new: &ApplicationFiles, answer: &mut Answer) {
    if let Some(why) = &old.refusal {
        return answer.push_shown(why);
    }
    if let Some(why) = &new.refusal {
        return answer.push_shown(why);
    }
    match (old.libraries.as_slice(), new.libraries.as_slice()) {
        ([.., old], [.., new]) => push_sameness(old, new, answer),
        _ => answer.push("no library"),
    }
}

fn push_sameness(old: &Library, new: &Library, answer: &mut Answer) {
    if old.is_same(new) {
        answer.push("same");
    } else {
        answer.push_after("differs ", new.app.name.as_str());
    }
}
