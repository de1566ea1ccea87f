//! From the lines of the input to the lines of the output.
use crate::text::bytes_of;
use std::alloc::{AllocError, Global};
use std::io;

// What parts the lines of a case, and those of its answer.
const BAR: &str = " | ";

// What a line begins with that is a further line of the case before it. A further line of an answer begins so too.
const MARGIN: &str = "    ";

// What a line begins with that only goes on with the line before it.
const WIDE_MARGIN: &str = "        ";

/// Answers each case of the input. `answer` is given a case's mode and the bytes that its text stands for.
pub fn answer_cases<R, F>(rt: &R, answer: F) -> io::Result<()>
where
    R: Input + Print + AllocGlobal,
    F: Fn(Global, &str, &[u8]) -> Result<String, AllocError> + Drop,
    requires { F.IsAlwaysCallable answer }
{
    let alloc = rt.alloc();
    let input = io::read_to_string(alloc, rt.reader())?;
    let mut case = Case::of(alloc, "")?;
    for (i, line) in input.lines().enumerate() {
        if let Some(rest) = line.strip_prefix(WIDE_MARGIN) {
            case.go_on(line, "", rest)?;
        } else if let Some(rest) = line.strip_prefix(MARGIN) {
            case.go_on(line, BAR, rest)?;
        } else {
            if i > 0 {
                let written = case.answered(alloc, &answer)?;
                println!(rt; "{written}")?;
            }
            case = Case::of(alloc, line)?;
        }
    }
    let written = case.answered(alloc, &answer)?;
    println!(rt; "{written}")
}

// A case, a heading or an empty line.
#[derive(Drop)]
struct Case {
    // Its lines as they stand.
    lines: String,
    // The same as one line.
    text: String,
    // Whether there are several lines.
    is_long: bool,
}

impl Case {
    // What has this line alone.
    fn of(alloc: Global, line: &str) -> Result<Case, AllocError> {
        Ok(Case {
            lines: String::from_str(alloc, line)?,
            text: String::from_str(alloc, line)?,
            is_long: false,
        })
    }

    // The case has a further line, which stands for this text, after what parts it from the text before.
    fn go_on(&mut self, line: &str, between: &str, text: &str) -> Result<(), AllocError> {
        self.lines.push('\n')?;
        self.lines.push_str(line)?;
        self.text.push_str(between)?;
        self.text.push_str(text)?;
        self.is_long = true;
        Ok(())
    }

    // What is written: the case with its answer, or a heading or an empty line as it is. Where the case has several lines, so has
    // the answer.
    fn answered<F>(&self, alloc: Global, answer: &F) -> Result<String, AllocError>
    where
        F: Fn(Global, &str, &[u8]) -> Result<String, AllocError>,
        requires { F.IsAlwaysCallable answer.now }
    {
        let lines = self.lines.as_str();
        if self.text.is_empty() || self.text.starts_with('#') {
            return String::from_str(alloc, lines);
        }
        let (mode, text) = self.text.split_once(' ').unwrap_or((&self.text, ""));
        let answered = match bytes_of(alloc, text)? {
            Some(bytes) => answer(alloc, mode, &bytes)?,
            None => String::from_str(alloc, "no such text")?,
        };
        if self.is_long {
            let answered = in_lines(alloc, answered.as_str())?;
            format!(in alloc; "{lines}\n => {answered}")
        } else {
            format!(in alloc; "{lines} => {answered}")
        }
    }
}

// An answer with a line for each of its parts.
fn in_lines(alloc: Global, answer: &str) -> Result<String, AllocError> {
    let mut lines = String::new(alloc);
    for (i, part) in answer.split(BAR).enumerate() {
        if i > 0 {
            lines.push('\n')?;
            lines.push_str(MARGIN)?;
        }
        lines.push_str(part)?;
    }
    Ok(lines)
}
