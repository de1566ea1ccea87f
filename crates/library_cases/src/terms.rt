//! Terms, as `erl_term` reads and prints them.
use erl_term::{Spanned, Term, TermFault, print, read_record, read_terms};
use std::alloc::Global;
use text_cases::Answer;

/// Appends each term of a text with its places, or the fault.
pub(crate) fn push_terms(alloc: Global, text: &[u8], answer: &mut Answer) {
    match read_terms(alloc, text) {
        Ok(terms) => push_spanned(terms.as_slice(), answer),
        Err(fault) => answer.push_shown(&fault),
    }
}

fn push_spanned(terms: &[Spanned], answer: &mut Answer) {
    if terms.is_empty() {
        return answer.push("no term");
    }
    let mut gap = "";
    for spanned in terms {
        answer.push(gap);
        answer.push_debug(&spanned.term);
        answer.push(" ");
        push_range(spanned.from, spanned.to, answer);
        gap = "; ";
    }
}

fn push_range(from: usize, to: usize, answer: &mut Answer) {
    answer.push_number(from as u64);
    answer.push("..");
    answer.push_number(to as u64);
}

/// Appends the one term of a record's body, or the fault.
pub(crate) fn push_record(alloc: Global, text: &[u8], answer: &mut Answer) {
    match read_record(alloc, text) {
        Ok(term) => answer.push_debug(&term),
        Err(fault) => answer.push_shown(&fault),
    }
}

/// Appends what a clone of the one term is printed as, or the fault.
pub(crate) fn push_printed(alloc: Global, text: &[u8], answer: &mut Answer) {
    match read_record(alloc, text) {
        Ok(term) => push_clone(alloc, &term, answer),
        Err(fault) => answer.push_shown(&fault),
    }
}

fn push_clone(alloc: Global, term: &Term, answer: &mut Answer) {
    match term.clone() {
        Ok(copy) => answer.push_made(&print(alloc, &copy)),
        Err(_) => answer.note_no_memory(),
    }
}

/// Appends how many terms each prefix has, or its fault. Prefixes in a row with the same answer are one entry, with the least
/// and the greatest of their lengths.
pub(crate) fn push_prefixes(alloc: Global, text: &[u8], answer: &mut Answer) {
    let mut least = 0;
    let mut found = count(alloc, &[]);
    for length in 1..=text.len() {
        let next = count(alloc, &text[..length]);
        if next != found {
            push_entry(least, length - 1, found, answer);
            answer.push("; ");
            least = length;
            found = next;
        }
    }
    push_entry(least, text.len(), found, answer);
}

// How many terms a text has, or its fault.
fn count(alloc: Global, text: &[u8]) -> Result<usize, TermFault> {
    Ok(read_terms(alloc, text)?.len())
}

// Appends the answer of the prefixes of these lengths.
fn push_entry(least: usize, greatest: usize, found: Result<usize, TermFault>, answer: &mut Answer) {
    push_range(least, greatest, answer);
    match found {
        Ok(count) => {
            answer.push(" ok ");
            answer.push_number(count as u64);
        }
        Err(fault) => {
            answer.push(" ");
            answer.push_shown(&fault);
        }
    }
}
