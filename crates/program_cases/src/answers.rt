//! The answer to a case.
use crate::listings::push_listed;
use crate::narrow_writers::WIDE;
use crate::sessions::push_input;
use crate::streams::push_of_text;
use std::alloc::{AllocError, Global};
use std::sync::Wait;
use std::thread::Threads;
use text_cases::Answer;

/// The answer in one of the modes of [`push_of_text`], or in one of two whose texts are bytes. `unknown_bytes`: the text is one
/// input, as in [`push_input`]. `list`: it is listed, as in [`push_listed`].
pub(crate) fn answer<H: Threads + Wait + Sync>(
    rt: &H,
    host: &HostRuntime,
    alloc: Global,
    mode: &str,
    text: &[u8],
) -> Result<String, AllocError> {
    let mut answer = Answer::new(alloc);
    match mode {
        "raw" => push_input(rt, alloc, text, &mut answer),
        "list" => push_listed(alloc, text, WIDE, &mut answer),
        _ => push_of_text(
            rt,
            host,
            mode,
            str::from_utf8(text).unwrap_or(""),
            &mut answer,
        ),
    }
    answer.finish()
}
