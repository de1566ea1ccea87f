//! Which arguments are options.
use rel_host::{Options, OptionsError, read_options};
use std::alloc::Global;
use text_cases::Answer;

/// Appends what these arguments give, with blanks between them.
pub(crate) fn push_options(alloc: Global, words: &str, answer: &mut Answer) {
    match words.split_whitespace().collect::<Vec<&str>>(alloc) {
        Ok(words) => push_read(&read_options(alloc, &words), answer),
        Err(_) => answer.note_no_memory(),
    }
}

fn push_read(read: &Result<Options, OptionsError>, answer: &mut Answer) {
    match read {
        Ok(options) => {
            push_given("store", &options.store, answer);
            push_given(", root", &options.root, answer);
        }
        Err(OptionsError::BadArguments) => answer.push("bad"),
        Err(OptionsError::NoMemory) => answer.note_no_memory(),
    }
}

fn push_given(name: &str, given: &Option<String>, answer: &mut Answer) {
    answer.push(name);
    match given {
        Some(value) => {
            answer.push_after(" [", value.as_str());
            answer.push("]");
        }
        None => answer.push(" none"),
    }
}
