//! The program `relup_cases`: what the libraries of `mkrelup` make of the cases on its input, a case a line.
//!
//! `up`, `down`, `restart`, `erts`: the relups that `release_relup` makes of an appup, as in [`texts::push_made`]. `replace`: the
//! calls of a host by which `file_replacement` replaces a file, as in [`replacements::push_replaced`].
#![tactic(auto)]

mod replacements;
mod texts;

use std::alloc::{AllocError, Global};
use std::io;
use text_cases::{Answer, answer_cases};

fn main(rt: HostRuntime) -> io::Result<()> {
    answer_cases(&rt, |alloc: Global, mode: &str, text: &[u8]| {
        answer(alloc, mode, text)
    })
}

fn answer(alloc: Global, mode: &str, text: &[u8]) -> Result<String, AllocError> {
    let mut answer = Answer::new(alloc);
    let words = str::from_utf8(text).unwrap_or("");
    match mode {
        "replace" => replacements::push_replaced(words, &mut answer),
        _ => texts::push_made(alloc, mode, words, &mut answer)?,
    }
    answer.finish()
}
