//! The search for the first entry that is for a version.
ghost use Rattle.std.specs.Prelude.{◌≡◌, IfOk, IfErr, Ok, Some, map};
ghost use Rattle.std.specs.Option.{option_map};
ghost use Rattle.appup_file.specs.Instruction.{row_of, entry_of, appup_of, version_of};
ghost use Rattle.appup_file.specs.Search.{entries_of};
ghost use Rattle.regex.specs.Patterns.{default_config};
ghost use Rattle.regex.specs.Strings.{match_span, regex_source, regex_config, IsReadFromSource};
ghost use Rattle.appup_match.specs.Match.{verdict, is_whole, text_verdict, pattern_verdict, entry_matching, Refuses, RefusesVersion, RefusesPattern, RefusesText};

use crate::ambiguity::is_ambiguous;
use crate::{MatchError, PatternFault};
use appup_file::{Appup, AppupEntry, AppupInstr, OtherVersion};
use regex::{Match, Regex};
use relup_instruction::Direction;
use std::alloc::Global;

// Why it isn't known whether an entry is for a version.
#[derive(Clone, Copy)]
enum NoVerdict {
    Pattern(PatternFault),
    NoMemory,
}

/// The instructions for an upgrade from a version, or for a downgrade to it: those of the first entry that is for it (OTP:
/// `systools_relup:appup_search_for_version/2`). An entry is for the version that it has, or for those of which its pattern's
/// first match is the whole.
pub fn entry_matching<'a>(
    alloc: Global,
    appup: &'a Appup,
    vsn: &str,
    direction: Direction,
) -> Result<&'a [AppupInstr], MatchError>
    ensures found { IfOk result (λ row. entry_matching vsn.now
        (entries_of direction (appup_of appup.now)) ≡ Ok (row_of row.now)) }
    ensures refused { IfErr result (Refuses vsn.now (entries_of direction (appup_of appup.now))) }
{
    match direction {
        Direction::Up => matching_in(alloc, &appup.ups, vsn),
        Direction::Down => matching_in(alloc, &appup.downs, vsn),
    }
}

fn matching_in<'a>(
    alloc: Global,
    entries: &'a [AppupEntry],
    vsn: &str,
) -> Result<&'a [AppupInstr], MatchError>
    ensures found { IfOk result (λ row.
        entry_matching vsn.now (map entry_of entries.now) ≡ Ok (row_of row.now)) }
    ensures refused { IfErr result (Refuses vsn.now (map entry_of entries.now)) }
{
    for (place, entry) in entries.iter().enumerate() {
        match is_for(alloc, &entry.vsn, vsn) {
            Ok(true) => return Ok(&entry.instrs),
            Ok(false) => {}
            Err(NoVerdict::Pattern(fault)) => return Err(MatchError::BadPattern(place, fault)),
            Err(NoVerdict::NoMemory) => return Err(MatchError::NoMemory),
        }
    }
    Err(MatchError::NoEntry)
}

// Whether an entry is for a version.
fn is_for(alloc: Global, other: &OtherVersion, vsn: &str) -> Result<bool, NoVerdict>
    ensures answer { IfOk result (λ b. verdict vsn.now (version_of other.now) ≡ Some b) }
    ensures refused { IfErr result (RefusesVersion (version_of other.now)) }
{
    match other {
        OtherVersion::Text(other) => Ok(other.as_str() == vsn),
        OtherVersion::Pattern(bytes) => is_of_pattern(alloc, bytes, vsn),
    }
}

// Whether a pattern is for a version.
fn is_of_pattern(alloc: Global, bytes: &[u8], vsn: &str) -> Result<bool, NoVerdict>
    ensures answer { IfOk result (λ b. pattern_verdict vsn.now bytes.now ≡ Some b) }
    ensures refused { IfErr result (RefusesPattern bytes.now) }
{
    if is_ambiguous(bytes) {
        return Err(NoVerdict::Pattern(PatternFault::Ambiguous));
    }
    matches_whole(alloc, bytes, vsn)
}

// Whether the first match of a text that has one reading is the whole version.
fn matches_whole(alloc: Global, bytes: &[u8], vsn: &str) -> Result<bool, NoVerdict>
    ensures answer { IfOk result (λ b. text_verdict vsn.now bytes.now ≡ Some b) }
    ensures refused { IfErr result (RefusesText bytes.now) }
{
    let Ok(source) = str::from_utf8(bytes) else {
        return Err(NoVerdict::Pattern(PatternFault::NoPattern));
    };
    let regex = compiled(alloc, source)?;
    let Ok(mut matcher) = regex.matcher(alloc) else {
        return Err(NoVerdict::NoMemory);
    };
    Ok(is_whole(matcher.find(vsn), vsn))
}

fn is_whole(found: Option<Match<'_>>, vsn: &str) -> bool
    ensures { result ≡ is_whole vsn.now (option_map match_span found.entry) }
{
    match found {
        Some(found) => found.start() == 0 && found.end() == vsn.len(),
        None => false,
    }
}

// The regular expression that a text is.
fn compiled(alloc: Global, source: &str) -> Result<Regex, NoVerdict>
    ensures source { IfOk result (λ r. regex_source r ≡ source.now) }
    ensures config { IfOk result (λ r. regex_config r ≡ default_config) }
    ensures read { IfOk result IsReadFromSource }
    ensures refused { IfErr result (RefusesText source.now) }
{
    match Regex::new(alloc, source) {
        Ok(regex) => Ok(regex),
        Err(regex::Error::Syntax(_)) => Err(NoVerdict::Pattern(PatternFault::NoPattern)),
        Err(regex::Error::CompiledTooBig) => Err(NoVerdict::Pattern(PatternFault::TooBig)),
        Err(regex::Error::Internal) => Err(NoVerdict::Pattern(PatternFault::TooBig)),
        Err(regex::Error::OutOfMemory) => Err(NoVerdict::NoMemory),
    }
}
