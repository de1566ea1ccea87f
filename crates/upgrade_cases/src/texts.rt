//! Parts of answers that several modules append.
use relup_file::{Relup, print_relup};
use std::alloc::Global;
use std::fmt;
use text_cases::Answer;

/// Appends the text that a relup is printed as, or why there is none.
pub(crate) fn push_relup<E: fmt::Display>(
    alloc: Global,
    made: &Result<Relup, E>,
    answer: &mut Answer,
) {
    match made {
        Ok(relup) => answer.push_made(&print_relup(alloc, relup)),
        Err(fault) => answer.push_shown(fault),
    }
}
