//! Terms: `erl_term`.
use erl_term::{Term, TermFault, print, read_terms};
use std::alloc::Global;
use text_cases::Answer;

/// Appends the terms of a text, each printed with its places, or the text's fault.
pub(crate) fn push_terms(alloc: Global, text: &[u8], answer: &mut Answer) {
    match read_terms(alloc, text) {
        Ok(terms) => {
            for spanned in terms.as_slice() {
                push_term(alloc, &spanned.term, answer);
                answer.push_counted(" ", spanned.from as u64);
                answer.push_counted(" ", spanned.to as u64);
                answer.push("; ");
            }
        }
        Err(fault) => push_fault(fault, answer),
    }
}

/// Appends a term, printed.
pub(crate) fn push_term(alloc: Global, term: &Term, answer: &mut Answer) {
    answer.push_made(&print(alloc, term));
}

// Appends a fault, as its variant says it.
fn push_fault(fault: TermFault, answer: &mut Answer) {
    match fault {
        TermFault::BadToken(at) => answer.push_counted("BadToken ", at as u64),
        TermFault::BadNumber(at) => answer.push_counted("BadNumber ", at as u64),
        TermFault::Unclosed(at) => answer.push_counted("Unclosed ", at as u64),
        TermFault::MissingDot(at) => answer.push_counted("MissingDot ", at as u64),
        TermFault::Unsupported(at) => answer.push_counted("Unsupported ", at as u64),
        TermFault::Deep(at) => answer.push_counted("Deep ", at as u64),
        TermFault::NoMemory => answer.note_no_memory(),
    }
}
