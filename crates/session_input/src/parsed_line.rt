//! What a line says where a command may stand.
ghost use Rattle.std.specs.Prelude.{◌≡◌, ℕ, List, length, map, chars, nat_lt, string_bytes, IfOk};
ghost use Rattle.std.specs.Char.{is_ascii_digit};
ghost use Rattle.std.specs.List.{list_all};
ghost use Rattle.std.specs.Option.{option_map};
ghost use Rattle.session_input.specs.Commands.{command_of, is_blank as blank, is_id, names_process, input_of, times_of, peek_of, call_of, flood_of, is_path, path_in as path_within, path_of, paths_of, relup_of, version_in as version_of, change_named as named_change};

use crate::command::Command;
use crate::line::Line;
use crate::words::split_at;
use rel_files::text::{is_name, is_version};
use std::alloc::{AllocError, Global};

/// How many bytes the line of a command has at most.
pub const MOST_LINE: usize = 4_096;

/// What a line says where a command may stand.
#[derive(Drop)]
pub enum ParsedLine {
    /// The line is blank.
    Blank,
    /// The file of this path follows, up to its end.
    FileBegins(String),
    /// A whole command, or a bad one.
    Command(Command),
}

impl ParsedLine {
    ghost use Rattle.session_input.specs.ParsedLine.{parsed_line_of};
    ghost use Rattle.session_input.specs.Commands.{parse_line, parse_words, parse_command, parse_process_command, parse_peek, parse_call, parse_flood, parse_path_command, parse_relup, parse_change, without_words, with_word, command_of, words_of, most_line};
    ghost use Rattle.session_input.specs.Commands.Command.{create, set_unpacked};
    ghost use Rattle.session_input.specs.Commands.ParsedLine.{file_begins, whole_command};
    ghost use Rattle.session_input.specs.Lines.{IsKept};

    /// What the line says. One that is too long says no command.
    pub fn of(alloc: Global, line: &Line) -> Result<ParsedLine, AllocError>
        ensures { IfOk result (λ parsed. (l : List ℕ) → IsKept most_line line.now l
            → parsed_line_of parsed ≡ parse_line l) }
    {
        let Line::Text(bytes) = line else {
            return Ok(ParsedLine::Command(Command::Bad));
        };
        if is_blank(bytes) {
            return Ok(ParsedLine::Blank);
        }
        match str::from_utf8(bytes) {
            Ok(text) => ParsedLine::of_text(alloc, text),
            Err(_) => Ok(ParsedLine::Command(Command::Bad)),
        }
    }

    fn of_text(alloc: Global, text: &str) -> Result<ParsedLine, AllocError>
        ensures { IfOk result (λ parsed. parsed_line_of parsed ≡ parse_words (words_of text.now)) }
    {
        let words = split_at(alloc, text, ' ')?;
        ParsedLine::of_words(alloc, words.as_slice())
    }

    fn of_words(alloc: Global, words: &[&str]) -> Result<ParsedLine, AllocError>
        ensures { IfOk result (λ parsed.
            parsed_line_of parsed ≡ parse_words (map (λ word. word.now) words.now)) }
    {
        match words {
            [] => Ok(ParsedLine::Command(Command::Bad)),
            [word, words @ ..] => ParsedLine::of_command(alloc, word, words),
        }
    }

    // What a command's word says with the words after it, each by its kind.
    fn of_command(alloc: Global, word: &str, words: &[&str]) -> Result<ParsedLine, AllocError>
        ensures { IfOk result (λ parsed.
            parsed_line_of parsed ≡ parse_command word.now (map (λ word. word.now) words.now)) }
    {
        match word {
            "boot" => Ok(ParsedLine::without_words(words, Command::Boot)),
            "start" => Ok(ParsedLine::without_words(words, Command::Start)),
            "releases" => Ok(ParsedLine::without_words(words, Command::Releases)),
            "procs" => Ok(ParsedLine::without_words(words, Command::Procs)),
            "modules" => Ok(ParsedLine::without_words(words, Command::Modules)),
            "quit" => Ok(ParsedLine::without_words(words, Command::Quit)),
            _ => ParsedLine::of_process_command(alloc, word, words),
        }
    }

    // What the word of a command on a process says with the words after it.
    fn of_process_command(
        alloc: Global,
        word: &str,
        words: &[&str],
    ) -> Result<ParsedLine, AllocError>
        ensures { IfOk result (λ parsed. parsed_line_of parsed
            ≡ parse_process_command word.now (map (λ word. word.now) words.now)) }
    {
        match word {
            "peek" => ParsedLine::of_peek(alloc, words),
            "call" => ParsedLine::of_call(alloc, words),
            "flood" => ParsedLine::of_flood(alloc, words),
            _ => ParsedLine::of_path_command(alloc, word, words),
        }
    }

    // What the word of a command on a file says with the words after it.
    fn of_path_command(alloc: Global, word: &str, words: &[&str]) -> Result<ParsedLine, AllocError>
        ensures { IfOk result (λ parsed. parsed_line_of parsed
            ≡ parse_path_command word.now (map (λ word. word.now) words.now)) }
    {
        match word {
            "file" => ParsedLine::of_file(alloc, words),
            "create" => ParsedLine::of_create(alloc, words),
            "set_unpacked" => ParsedLine::of_set_unpacked(alloc, words),
            "relup" => ParsedLine::of_relup(alloc, words),
            _ => ParsedLine::of_change(alloc, word, words),
        }
    }

    // What the word of a file says with the words after it.
    fn of_file(alloc: Global, words: &[&str]) -> Result<ParsedLine, AllocError>
        ensures { IfOk result (λ parsed. parsed_line_of parsed
            ≡ with_word (path_within (map (λ word. word.now) words.now)) file_begins) }
    {
        Ok(match path_in(alloc, words)? {
            Some(path) => ParsedLine::FileBegins(path),
            None => ParsedLine::Command(Command::Bad),
        })
    }

    // What the word of a new node says with the words after it.
    fn of_create(alloc: Global, words: &[&str]) -> Result<ParsedLine, AllocError>
        ensures { IfOk result (λ parsed. parsed_line_of parsed
            ≡ with_word (path_within (map (λ word. word.now) words.now))
            (λ path. whole_command (create path))) }
    {
        Ok(ParsedLine::Command(match path_in(alloc, words)? {
            Some(path) => Command::Create(path),
            None => Command::Bad,
        }))
    }

    // What the word of a release to take in says with the words after it.
    fn of_set_unpacked(alloc: Global, words: &[&str]) -> Result<ParsedLine, AllocError>
        ensures { IfOk result (λ parsed. parsed_line_of parsed
            ≡ with_word (path_within (map (λ word. word.now) words.now))
            (λ path. whole_command (set_unpacked path))) }
    {
        Ok(ParsedLine::Command(match path_in(alloc, words)? {
            Some(path) => Command::SetUnpacked(path),
            None => Command::Bad,
        }))
    }

    // What the word of a relup's request says with the words after it.
    fn of_relup(alloc: Global, words: &[&str]) -> Result<ParsedLine, AllocError>
        ensures { IfOk result (λ parsed.
            parsed_line_of parsed ≡ parse_relup (map (λ word. word.now) words.now)) }
    {
        match words {
            [new, ups, downs] => Ok(ParsedLine::Command(relup_in(alloc, new, ups, downs)?)),
            _ => Ok(ParsedLine::Command(Command::Bad)),
        }
    }

    // What the word of a peek says with the words after it.
    fn of_peek(alloc: Global, words: &[&str]) -> Result<ParsedLine, AllocError>
        ensures { IfOk result (λ parsed.
            parsed_line_of parsed ≡ parse_peek (map (λ word. word.now) words.now)) }
    {
        match words {
            [app, id] => Ok(ParsedLine::Command(peek_of(alloc, app, id)?)),
            _ => Ok(ParsedLine::Command(Command::Bad)),
        }
    }

    // What the word of a call says with the words after it.
    fn of_call(alloc: Global, words: &[&str]) -> Result<ParsedLine, AllocError>
        ensures { IfOk result (λ parsed.
            parsed_line_of parsed ≡ parse_call (map (λ word. word.now) words.now)) }
    {
        match words {
            [app, id, input] => {
                Ok(ParsedLine::Command(call_of(alloc, app, id, input_of(input))?))
            }
            _ => Ok(ParsedLine::Command(Command::Bad)),
        }
    }

    // What the word of a flood says with the words after it.
    fn of_flood(alloc: Global, words: &[&str]) -> Result<ParsedLine, AllocError>
        ensures { IfOk result (λ parsed.
            parsed_line_of parsed ≡ parse_flood (map (λ word. word.now) words.now)) }
    {
        match words {
            [app, id, input, times] => {
                let flood = flood_of(alloc, app, id, input_of(input), times_of(times))?;
                Ok(ParsedLine::Command(flood))
            }
            _ => Ok(ParsedLine::Command(Command::Bad)),
        }
    }

    // What the word of a command on a listed release says with the words after it.
    fn of_change(alloc: Global, word: &str, words: &[&str]) -> Result<ParsedLine, AllocError>
        ensures { IfOk result (λ parsed.
            parsed_line_of parsed ≡ parse_change word.now (map (λ word. word.now) words.now)) }
    {
        Ok(ParsedLine::Command(match version_in(alloc, words)? {
            Some(vsn) => change_named(word, vsn),
            None => Command::Bad,
        }))
    }

    // A command that takes no words.
    fn without_words(words: &[&str], command: Command) -> ParsedLine
        ensures { parsed_line_of result
            ≡ without_words (map (λ word. word.now) words.now)
            (whole_command (command_of command)) }
    {
        match words {
            [] => ParsedLine::Command(command),
            _ => ParsedLine::Command(Command::Bad),
        }
    }
}

// The command on the release of this version that a word names.
fn change_named(word: &str, vsn: String) -> Command
    ensures { command_of result ≡ named_change word.now (string_bytes vsn) }
{
    match word {
        "install" => Command::Install(vsn),
        "check" => Command::Check(vsn),
        "permanent" => Command::Permanent(vsn),
        "remove" => Command::Remove(vsn),
        "reboot_old" => Command::RebootOld(vsn),
        _ => Command::Bad,
    }
}

// The path that these words are: one word, and not an empty one.
fn path_in(alloc: Global, words: &[&str]) -> Result<Option<String>, AllocError>
    ensures { IfOk result (λ path.
        option_map string_bytes path ≡ path_within (map (λ word. word.now) words.now)) }
{
    match words {
        [word] => path_of(alloc, word),
        _ => Ok(None),
    }
}

// The path that a word is, if it isn't empty.
fn path_of(alloc: Global, word: &str) -> Result<Option<String>, AllocError>
    ensures { IfOk result (λ path. option_map string_bytes path ≡ path_of word.now) }
{
    match word {
        "" => Ok(None),
        path => Ok(Some(String::from_str(alloc, path)?)),
    }
}

// The paths that a word has between its commas, if none of them is empty. A hyphen alone stands for none.
fn paths_of(alloc: Global, word: &str) -> Result<Option<Vec<String>>, AllocError>
    ensures { IfOk result (λ paths.
        option_map (λ v. map string_bytes v.items) paths ≡ paths_of word.now) }
{
    if word == "-" {
        return Ok(Some(Vec::new(alloc)));
    }
    let paths = split_at(alloc, word, ',')?;
    if are_paths(&paths) {
        Ok(Some(copies(alloc, &paths)?))
    } else {
        Ok(None)
    }
}

// Whether none of them is empty.
fn are_paths(words: &[&str]) -> bool
    ensures { result ≡ list_all is_path (map (λ word. word.now) words.now) }
{
    for word in words {
        if word.is_empty() {
            return false;
        }
    }
    true
}

fn copies(alloc: Global, texts: &[&str]) -> Result<Vec<String>, AllocError>
    ensures { IfOk result (λ v.
        map string_bytes v.items ≡ map (λ text. text.now) texts.now) }
{
    let mut copies = Vec::with_capacity(alloc, texts.len())?;
    for text in texts {
        copies.push(String::from_str(alloc, text)?)?;
    }
    Ok(copies)
}

// The request of a relup that these words say.
fn relup_in(alloc: Global, new: &str, ups: &str, downs: &str) -> Result<Command, AllocError>
    ensures { IfOk result (λ command. command_of command
        ≡ relup_of (path_of new.now) (paths_of ups.now) (paths_of downs.now)) }
{
    let new = path_of(alloc, new)?;
    let ups = paths_of(alloc, ups)?;
    let downs = paths_of(alloc, downs)?;
    Ok(relup_of(new, ups, downs))
}

// The request of a relup, or a bad command where one of its words was not of its kind.
fn relup_of(new: Option<String>, ups: Option<Vec<String>>, downs: Option<Vec<String>>) -> Command
    ensures { command_of result ≡ relup_of (option_map string_bytes new)
        (option_map (λ v. map string_bytes v.items) ups)
        (option_map (λ v. map string_bytes v.items) downs) }
{
    match (new, ups, downs) {
        (Some(new), Some(ups), Some(downs)) => Command::Relup(new, ups, downs),
        _ => Command::Bad,
    }
}

// The version that these words are: one word that is the text of a version.
fn version_in(alloc: Global, words: &[&str]) -> Result<Option<String>, AllocError>
    ensures { IfOk result (λ vsn.
        option_map string_bytes vsn ≡ version_of (map (λ word. word.now) words.now)) }
{
    match words {
        [vsn] if is_version(vsn) => Ok(Some(String::from_str(alloc, vsn)?)),
        _ => Ok(None),
    }
}

// The peek that these words ask, or a bad command if they can't name a process.
fn peek_of(alloc: Global, app: &str, id: &str) -> Result<Command, AllocError>
    ensures { IfOk result (λ command. command_of command ≡ peek_of app.now id.now) }
{
    if !names_process(app, id) {
        return Ok(Command::Bad);
    }
    let app = String::from_str(alloc, app)?;
    let id = String::from_str(alloc, id)?;
    Ok(Command::Peek(app, id))
}

// The call that these words and an input ask, or a bad command if they can't name a process or there is no input.
fn call_of(alloc: Global, app: &str, id: &str, input: Option<u32>) -> Result<Command, AllocError>
    ensures { IfOk result (λ command. command_of command ≡ call_of app.now id.now input) }
{
    let Some(input) = input else {
        return Ok(Command::Bad);
    };
    if !names_process(app, id) {
        return Ok(Command::Bad);
    }
    let app = String::from_str(alloc, app)?;
    let id = String::from_str(alloc, id)?;
    Ok(Command::Call(app, id, input))
}

// The flood that these words, an input and a number of times ask, or a bad command where one of them is not of its kind.
fn flood_of(
    alloc: Global,
    app: &str,
    id: &str,
    input: Option<u32>,
    times: Option<u32>,
) -> Result<Command, AllocError>
    ensures { IfOk result (λ command.
        command_of command ≡ flood_of app.now id.now input times) }
{
    let (Some(input), Some(times)) = (input, times) else {
        return Ok(Command::Bad);
    };
    if !names_process(app, id) {
        return Ok(Command::Bad);
    }
    let app = String::from_str(alloc, app)?;
    let id = String::from_str(alloc, id)?;
    Ok(Command::Flood(app, id, input, times))
}

// Whether they can name a process: its application, and its id there.
fn names_process(app: &str, id: &str) -> bool
    ensures { result ≡ names_process app.now id.now }
{
    is_name(app) && is_id(id)
}

// Whether it can be the id of a process: 1 to 255 characters, and no byte up to 0x20.
fn is_id(word: &str) -> bool
    ensures { result ≡ is_id word.now }
{
    let count = count_characters(word);
    1 <= count && count <= 255 && has_no_blank(word.as_bytes())
}

fn count_characters(text: &str) -> usize
    ensures { result ≡ length (chars text.now) }
{
    text.chars().count()
}

// Whether no byte up to 0x20 stands in it.
fn has_no_blank(word: &[u8]) -> bool
    ensures { result ≡ list_all (nat_lt 32) word.now }
{
    word.iter().all(|byte| *byte > b' ')
}

// The input that a word is: the number of 32 bits that it spells, if it is decimal digits alone. A `+`, which `parse` takes,
// is no digit.
fn input_of(word: &str) -> Option<u32>
    ensures { result ≡ input_of word.now }
{
    if are_digits(word.as_bytes()) {
        word.parse().ok()
    } else {
        None
    }
}

// How often a process is called at once, if the word is a number from 1 to 1,000.
fn times_of(word: &str) -> Option<u32>
    ensures { result ≡ times_of word.now }
{
    match input_of(word) {
        Some(times) if 1 <= times && times <= 1_000 => Some(times),
        _ => None,
    }
}

fn are_digits(word: &[u8]) -> bool
    ensures { result ≡ list_all is_ascii_digit word.now }
{
    word.iter().all(|byte| byte.is_ascii_digit())
}

// Whether there is nothing to see in it.
fn is_blank(line: &[u8]) -> bool
    ensures { result ≡ blank line.now }
{
    line.iter().all(|byte| *byte <= b' ')
}
