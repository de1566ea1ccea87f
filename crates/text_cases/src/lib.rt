//! Cases of texts, for programs that show what a library makes of them.
//!
//! A case is a mode and, after a blank, a text. [`answer_cases`] reads cases from the input, a line each, and writes each with
//! ` => ` and its answer after it. Headings, which begin with `#`, and empty lines are written as they are. So the output alone
//! reads as a table. A text that has lines itself has bars between them (`a | b`), or a line of the input for each, which begins
//! with four blanks; its answer has a line for each part then. A line that begins with eight blanks goes on with the one before.
//!
//! An [`Answer`] is what functions append to. [`first_word`] and [`number`] take texts apart, and [`enclosed`] puts them
//! together. [`CaseFiles`] are files that a text gives, for libraries that read files.
//!
//! In a text `~XX` stands for the byte of these two hexadecimal digits, and `~(N TEXT)` for N copies of TEXT.
#![tactic(auto)]

mod answer;
mod cases;
mod files;
mod text;
mod words;

pub use answer::Answer;
pub use cases::answer_cases;
pub use files::CaseFiles;
pub use text::{bytes_of, enclosed};
pub use words::{first_word, number};
