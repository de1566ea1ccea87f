//! The relup of a release as a text.
ghost use Rattle.std.specs.Prelude.{◌≡◌, ◌↔◌, IfOk, IfErr, IsTrue, map, string_bytes};
ghost use Rattle.erl_term.specs.Value.{value_of};
ghost use Rattle.rel_files.specs.OneTermFile.{HasFileTerm};
ghost use Rattle.relup_file.specs.Relup.{relup_of};
ghost use Rattle.relup_row.specs.Release.{relup_release_of};
ghost use Rattle.relup_command.specs.Releases.{releases_of};
ghost use Rattle.relup_command.specs.Laws.{AreWellFormed};
ghost use Rattle.release_relup.specs.Made.{IsRelupOf, RefusesPlain, IsPrinted, RefusesPrinting, IsTextOf, RefusesReleases, IsMadeText, IsRefusal, NamesFile};
ghost use Rattle.release_relup.specs.Refusal.{HasPlace};
ghost use Rattle.release_relup.specs.Warnings.{warnings};

use crate::judgement::first_found;
use crate::refusal::{located, located_in_files, unless_memory};
use crate::warnings::warnings_of;
use crate::{MakeError, Refusal};
use erl_term::{Term, print};
use file_source::Files;
use rel_files::read_one_term;
use relup_by_patterns::{PatternError, plain_release};
use relup_command::{Releases, read_releases};
use relup_file::{Relup, relup_term};
use relup_row::RelupRelease;
use runtime_change::make_relup_over_runtimes;
use std::alloc::{AllocError, Global};
use worker_table::is_same;

/// The text of a relup, and what `systools` warns of: a line for each appup that is of another version than its application.
#[derive(Drop)]
pub struct MadeText {
    pub text: String,
    pub warnings: Vec<String>,
}

/// The text of the relup of the release of the path `new`: the scripts up to it from the releases of the paths `ups`, and down from
/// it to those of `downs`, with a restart at the end of each, where that is asked for. Files are read in the order of `relup_command`.
pub fn make_relup_text<F: Files>(
    alloc: Global,
    files: &F,
    new: &str,
    ups: &[String],
    downs: &[String],
    restart: bool,
) -> Result<MadeText, Refusal>
    // The text is that of a relup which is made of what the files say, and is read back as this relup; the lines are all that
    // systools warns of.
    ensures made { IfOk result (λ m. IsMadeText (F.gives files.now) new.now
        (map string_bytes ups.now) (map string_bytes downs.now) restart
        (string_bytes m.text) (map string_bytes m.warnings.items)) }

    // A refusal is the first one, and names the file that it is about.
    ensures refused { IfErr result (λ r. IsRefusal (F.gives files.now) new.now
        (map string_bytes ups.now) (map string_bytes downs.now) restart r.why) }
    ensures file { IfErr result (λ r. NamesFile (F.gives files.now) new.now
        (map string_bytes ups.now) (map string_bytes downs.now) r.why (string_bytes r.file)) }

    // Of an appup whose term says none it has the entry or the instruction that is none.
    ensures place { IfErr result (λ r. HasPlace (F.gives files.now) r.why r.place) }
{
    match read_releases(alloc, files, new, ups, downs) {
        Ok(releases) => match text_with_warnings(alloc, restart, &releases) {
            Ok(made) => Ok(made),
            Err(why) => Err(located(alloc, new, Some(&releases.new), why)),
        },
        Err(why) => Err(located_in_files(alloc, files, new, why)),
    }
}

fn text_with_warnings(
    alloc: Global,
    restart: bool,
    releases: &Releases,
) -> Result<MadeText, MakeError>
    ensures text { IfOk result (λ m. AreWellFormed (releases_of releases.now)
        → IsTextOf restart (releases_of releases.now) (string_bytes m.text)) }
    ensures lines { IfOk result (λ m.
        map string_bytes m.warnings.items ≡ warnings (releases_of releases.now)) }
    ensures refused { IfErr result (RefusesReleases restart (releases_of releases.now)) }
{
    let text = text_of_releases(alloc, restart, releases)?;
    let warnings = warnings_of(alloc, releases)?;
    Ok(MadeText { text, warnings })
}

fn text_of_releases(alloc: Global, restart: bool, releases: &Releases) -> Result<String, MakeError>
    ensures made { IfOk result (λ text. AreWellFormed (releases_of releases.now)
        → IsTextOf restart (releases_of releases.now) (string_bytes text)) }
    ensures refused { IfErr result (RefusesReleases restart (releases_of releases.now)) }
{
    match plain_release(alloc, &releases.new, &releases.ups, &releases.downs) {
        Ok(plain) => {
            let relup = relup_of_plain(alloc, restart, &plain, &releases.ups, &releases.downs)?;
            text_of_relup(alloc, &relup)
        }
        Err(PatternError::BadPattern(pattern)) => Err(MakeError::Pattern(pattern)),
        Err(PatternError::NoMemory) => Err(MakeError::NoMemory),
    }
}

// The relup of a release with plain appups.
fn relup_of_plain(
    alloc: Global,
    restart: bool,
    plain: &RelupRelease,
    ups: &[RelupRelease],
    downs: &[RelupRelease],
) -> Result<Relup, MakeError>
    ensures made { IfOk result (λ r. IsRelupOf restart (relup_release_of plain.now)
        (map relup_release_of ups.now) (map relup_release_of downs.now) (relup_of r)) }
    ensures refused { IfErr result (RefusesPlain restart (relup_release_of plain.now)
        (map relup_release_of ups.now) (map relup_release_of downs.now)) }
{
    let relup = make_relup_over_runtimes(alloc, restart, plain, ups, downs)?;
    match first_found(alloc, plain, ups, downs)? {
        Some(found) => Err(MakeError::Refused(found)),
        None => Ok(relup),
    }
}

// The text of a relup, unless it isn't read back: it would be deeper than a reader takes.
fn text_of_relup(alloc: Global, relup: &Relup) -> Result<String, MakeError>
    ensures printed { IfOk result (λ text. IsPrinted (relup_of relup.now) (string_bytes text)) }
    ensures refused { IfErr result (RefusesPrinting (relup_of relup.now)) }
{
    let term = relup_term(alloc, relup)?;
    let mut text = print(alloc, &term)?;
    text.push_str(".")?;
    if has_term(alloc, text.as_bytes(), &term)? {
        Ok(text)
    } else {
        Err(MakeError::TooDeep)
    }
}

// Whether bytes are a file of this one term.
fn has_term(alloc: Global, bytes: &[u8], term: &Term) -> Result<bool, AllocError>
    ensures { IfOk result (λ has. IsTrue has ↔ HasFileTerm bytes.now (value_of term.now)) }
{
    match read_one_term(alloc, bytes) {
        Ok(file) => Ok(is_same(&file.term, term)),
        Err(fault) => {
            unless_memory(fault)?;
            Ok(false)
        }
    }
}
