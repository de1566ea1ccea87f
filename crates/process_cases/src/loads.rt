//! Modules that are loaded one by one.
use library::Library;
use loaded_modules::Loaded;
use std::alloc::{AllocError, Global};
use std::rc::Rc;
use text_cases::{Answer, first_word};

/// Appends what comes of a step that changes what is loaded, or what is fetched.
///
/// - `fetch APP MODULE`: the module of this application's library is fetched. `load MODULE`: what is fetched of this name is
///   loaded. `ok`, or `none` where there is no such module.
/// - `remove MODULE`: it isn't loaded any more. `copy`: what is loaded is fetched, and nothing else.
pub(crate) fn change_loaded(
    alloc: Global,
    libraries: &[Rc<Library>],
    loaded: &mut Loaded,
    fetched: &mut Loaded,
    step: &str,
    answer: &mut Answer,
) {
    let (word, rest) = first_word(step);
    match word {
        "fetch" => push_there(fetch(alloc, libraries, fetched, rest), answer),
        "load" => push_there(loaded.load_from(alloc, fetched, rest), answer),
        "remove" => {
            loaded.remove(rest);
            answer.push("ok");
        }
        _ => match loaded.copy() {
            Ok(copy) => {
                *fetched = copy;
                answer.push("ok");
            }
            Err(_) => answer.note_no_memory(),
        },
    }
}

fn fetch(
    alloc: Global,
    libraries: &[Rc<Library>],
    fetched: &mut Loaded,
    words: &str,
) -> Result<bool, AllocError> {
    let (app, module) = first_word(words);
    for library in libraries {
        if library.app.name.as_str() == app {
            return fetched.load(alloc, library, module);
        }
    }
    Ok(false)
}

fn push_there(loaded: Result<bool, AllocError>, answer: &mut Answer) {
    match loaded {
        Ok(true) => answer.push("ok"),
        Ok(false) => answer.push("none"),
        Err(_) => answer.note_no_memory(),
    }
}
