//! The input of a session.
ghost use Rattle.std.specs.Prelude.{◌≡◌, ◌+◌, ◌<◌, ◌≤◌, ℕ, false, [], string_bytes, IsSome, IfOk, IsTrue, ◌↔◌, IfErr, OnOk, OnErr, IfSome, MatchOption};
ghost use Rattle.std.specs.Io.KnownBytes.{Keeps};

use crate::ahead::Ahead;
use crate::command::Command;
use crate::error::SessionError;
use crate::given::{GivenFile, MOST_FILE};
use crate::line::Line;
use crate::parsed_line::{MOST_LINE, ParsedLine};
use counted_io::CountedReader;
use std::alloc::Global;
use std::io::Read;

/// The input of a session: a reader, of which at most 16,777,216 bytes are taken, and none after its end was read.
#[derive(Drop)]
pub struct Input<R> {
    reader: CountedReader<R>,
    ahead: Ahead,
}

impl<R: Read + Drop> Input<R> {
    ghost use Rattle.session_input.specs.Input.{IsFresh, KnowsEnd, reader_of, taken, left_in, reached, failed_reads, most_bytes, left, bytes_left, lines_left, commands_left, file_left, HasCause};
    ghost use Rattle.session_input.specs.Commands.{command_of};
    ghost use Rattle.session_input.specs.Lines.{IsKept};
    ghost use Rattle.session_input.specs.Feed.{IsNext, Stays};

    /// An input from which nothing was taken yet. It takes memory for a buffer.
    pub fn new(alloc: Global, reader: R) -> Result<Input<R>, SessionError>
        ensures fresh { IfOk result (λ i. IsFresh i × (reader_of i ≡ reader)
            × (failed_reads i ≡ 0)) }
        ensures memory { IfErr result (λ e. e ≡ SessionError.NoMemory) }
    {
        Ok(Input {
            reader: CountedReader::new(reader),
            ahead: Ahead::new(alloc)?,
        })
    }

    /// The next byte.
    pub(crate) fn next(&mut self) -> Result<Option<u8>, SessionError>
        requires end { KnowsEnd R.remaining self.old }
        ensures end { KnowsEnd R.remaining self.new }
        ensures byte { IsNext (λ b x. b ≡ x) result (reached self.new)
            (bytes_left R.remaining self.old) (bytes_left R.remaining self.new) }
        ensures further { reached self.old ≤ reached self.new }
        ensures spends { IfOk result
            (λ b. MatchOption b (left self.new ≡ left self.old)
            (λ _. left self.old ≡ left self.new + 1)) }
        ensures cause { HasCause result self.old self.new }
        ensures bounded { reached self.new ≤ most_bytes }
    {
        if let Some(byte) = self.ahead.pop() {
            return Ok(Some(byte));
        }
        if self.ahead.is_spent() {
            return Err(SessionError::Limit);
        }
        if self.ahead.is_over() {
            return Ok(None);
        }
        self.fill()?;
        Ok(self.ahead.pop())
    }

    /// The next line. One of more than `most` bytes isn't kept.
    pub(crate) fn next_line(
        &mut self,
        alloc: Global,
        most: usize,
    ) -> Result<Option<Line>, SessionError>
        requires end { KnowsEnd R.remaining self.old }
        ensures end { KnowsEnd R.remaining self.new }
        ensures line { IsNext (IsKept most) result (reached self.new)
            (lines_left R.remaining self.old) (lines_left R.remaining self.new) }
        ensures further { reached self.old ≤ reached self.new }
        ensures spends { IfOk result
            (λ l. MatchOption l (left self.new ≤ left self.old)
            (λ _. left self.new < left self.old)) }
        ensures cause { HasCause result self.old self.new }
        ensures bounded { reached self.new ≤ most_bytes }
    {
        let mut line = Line::Text(Vec::new(alloc));
        let mut is_begun = false;
        while let Some(byte) = self.next()? {
            if byte == b'\n' {
                return Ok(Some(line));
            }
            line.push(byte, most)?;
            is_begun = true;
        }
        if is_begun {
            return Ok(Some(line));
        }
        Ok(None)
    }

    /// The next command, with the file that belongs to it.
    pub fn next_command(&mut self, alloc: Global) -> Result<Option<Command>, SessionError>
        requires end { KnowsEnd R.remaining self.old }
        ensures end { KnowsEnd R.remaining self.new }
        ensures command { IsNext (λ c d. command_of c ≡ d) result (reached self.new)
            (commands_left R.remaining self.old) (commands_left R.remaining self.new) }
        ensures further { reached self.old ≤ reached self.new }
        ensures spends { IfOk result (λ c. IfSome c (λ _. left self.new < left self.old)) }
        ensures cause { HasCause result self.old self.new }
        ensures bounded { reached self.new ≤ most_bytes }
    {
        while let Some(line) = self.next_line(alloc, MOST_LINE)? {
            match ParsedLine::of(alloc, &line)? {
                ParsedLine::Blank => {}
                ParsedLine::FileBegins(path) => return self.file_at(alloc, path),
                ParsedLine::Command(command) => return Ok(Some(command)),
            }
        }
        Ok(None)
    }

    /// The command that gives the file whose lines come now, or a bad one if the file has no end.
    fn file_at(&mut self, alloc: Global, path: String) -> Result<Option<Command>, SessionError>
        requires end { KnowsEnd R.remaining self.old }
        ensures end { KnowsEnd R.remaining self.new }
        ensures command { IsNext (λ c d. command_of c ≡ d) result (reached self.new)
            (file_left R.remaining (string_bytes path) self.old)
            (commands_left R.remaining self.new) }
        ensures further { reached self.old ≤ reached self.new }
        ensures some { IfOk result IsSome }
        ensures spends { OnOk result (left self.new ≤ left self.old) }
        ensures cause { HasCause result self.old self.new }
        ensures bounded { reached self.new ≤ most_bytes }
    {
        let mut file = GivenFile::new(alloc);
        while let Some(line) = self.next_line(alloc, MOST_FILE)? {
            if line.is_end() {
                return Ok(Some(Command::File(path, file)));
            }
            file.push_line(&line)?;
        }
        Ok(Some(Command::Bad))
    }

    /// Takes what one read gives.
    fn fill(&mut self) -> Result<(), SessionError>
        requires used { self.old.ahead.bytes ≡ [] }
        requires unspent { taken self.old < most_bytes }
        requires before_end { self.old.ahead.is_over ≡ false }
        ensures end { KnowsEnd R.remaining self.new }
        ensures same { OnOk result ((most : ℕ) → taken self.new ≤ most
            → Stays (bytes_left R.remaining self.old most) (bytes_left R.remaining self.new most)) }
        ensures over { OnOk result (IsTrue self.new.ahead.is_over ↔ (self.new.ahead.bytes ≡ [])) }
        ensures left { OnOk result (left self.new ≡ left self.old) }
        ensures further { taken self.old ≤ taken self.new }
        ensures error { IfErr result (λ e. e ≡ SessionError.Read) }
        ensures nothing_taken { OnErr result ((self.new.ahead.bytes ≡ [])
            × (taken self.new ≡ taken self.old) × (self.new.ahead.is_over ≡ false)) }
        ensures kept { OnErr result
            (Keeps (left_in R.remaining self.old) (left_in R.remaining self.new)) }
        ensures cause { HasCause result self.old self.new }
        ensures bounded { taken self.new ≤ most_bytes }
    {
        Ok(self.ahead.fill(&mut self.reader)?)
    }
}
