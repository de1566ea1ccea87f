//! The words of a text.

/// The word before the first blank, and what follows the blank.
pub fn first_word(text: &str) -> (&str, &str) {
    text.split_once(' ').unwrap_or((text, ""))
}

/// The number of a word, and 0 of a word that is none.
pub fn number(word: &str) -> usize {
    word.parse::<usize>().unwrap_or(0)
}
