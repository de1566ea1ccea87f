//! A refusal, and the line that shows it.
ghost use Rattle.std.specs.Prelude.{◌≡◌, ◌≢◌, None, IfOk, option_map, string_bytes};
ghost use Rattle.relup_row.specs.Release.{relup_release_of};
ghost use Rattle.release_relup.specs.Made.{IsKept};
ghost use Rattle.release_relup.specs.Refusal.{HasPlace, IsFileOf, PlaceAt, PlaceIn, appup_named, appup_file, file_at_fault};

use crate::{FoundInstr, MakeError};
use appup_file::{ShapeFault, shape_fault};
use appup_match::PatternFault;
use file_source::{Files, FilesError};
use rel_files::{FileFault, read_one_term};
use rel_unpack::{FileTrouble, UnpackError};
use relup_by_patterns::BadPattern;
use relup_instruction::Direction;
use relup_row::RelupRelease;
use relup_translate::TranslateError;
use std::alloc::{AllocError, Global};

/// Why no relup is made, and of which file that is so.
#[derive(Drop)]
pub struct Refusal {
    /// A path below the folder in which files are read. It is empty where memory was missing.
    pub file: String,
    pub why: MakeError,
    /// What is none in the file, where it is an appup whose term says none.
    pub place: Option<ShapeFault>,
}

impl Refusal {
    ghost use Rattle.std.specs.Prelude.{◌≡◌};
    ghost use Rattle.release_relup.specs.Refusal.{is_no_memory, is_unreadable, IsLineOf};

    /// Whether no memory was left.
    pub fn is_no_memory(&self) -> bool
        ensures { result ≡ is_no_memory self.now.why }
    {
        matches!(
            &self.why,
            MakeError::NoMemory
                | MakeError::Files(UnpackError::NoMemory)
                | MakeError::Translation(TranslateError::NoMemory)
        )
    }

    /// Whether a file can't be read.
    pub fn is_unreadable(&self) -> bool
        ensures { result ≡ is_unreadable self.now.why }
    {
        matches!(
            &self.why,
            MakeError::Files(UnpackError::BadFile(_, FileTrouble::Unreadable))
        )
    }

    /// The line that shows it, `FILE: WHAT`.
    pub fn line(&self, alloc: Global) -> Result<String, AllocError>
        ensures { IfOk result (λ line. IsLineOf (string_bytes self.now.file) (string_bytes line)) }
    {
        let file = &self.file;
        let what = self.what(alloc)?;
        format!(in alloc; "{file}: {what}")
    }

    // What is wrong with the file, and what to do.
    fn what(&self, alloc: Global) -> Result<String, AllocError> {
        match self.place {
            Some(place) => place_text(alloc, place),
            None => error_text(alloc, &self.why),
        }
    }
}

// The refusal where there is no memory.
fn no_memory(alloc: Global) -> Refusal
    ensures why { result.why ≡ MakeError.NoMemory }
    ensures place { result.place ≡ None }
{
    Refusal {
        file: String::new(alloc),
        why: MakeError::NoMemory,
        place: None,
    }
}

// The refusal with the file that it is about. Where there is no memory for its path, that is the refusal.
pub(crate) fn located(
    alloc: Global,
    path: &str,
    new: Option<&RelupRelease>,
    why: MakeError,
) -> Refusal
    ensures kept { IsKept why result.why }
    ensures file { IsFileOf path.now (option_map (λ r. relup_release_of r.now) new.entry)
        result.why (string_bytes result.file) }
    ensures place { result.place ≡ None }
{
    match file_at_fault(alloc, path, new, &why) {
        Ok(file) => Refusal {
            file,
            why,
            place: None,
        },
        Err(_) => no_memory(alloc),
    }
}

// The refusal of a file that isn't taken, with what is none in it.
pub(crate) fn located_in_files<F: Files>(
    alloc: Global,
    files: &F,
    path: &str,
    why: UnpackError,
) -> Refusal
    ensures kept { IsKept (MakeError.Files why) result.why }
    ensures file { IsFileOf path.now None result.why (string_bytes result.file) }
    ensures place { HasPlace (F.gives files.now) result.why result.place }
{
    match place_of(alloc, files, &why) {
        Ok(place) => {
            let mut refusal = located(alloc, path, None, MakeError::Files(why));
            if !refusal.is_no_memory() {
                refusal.place = place;
            }
            refusal
        }
        Err(_) => no_memory(alloc),
    }
}

// What is none in the file that an error is about.
fn place_of<F: Files>(
    alloc: Global,
    files: &F,
    why: &UnpackError,
) -> Result<Option<ShapeFault>, AllocError>
    ensures { IfOk result (HasPlace (F.gives files.now) (MakeError.Files why.now)) }
{
    match why {
        UnpackError::BadFile(path, FileTrouble::Misshapen) => {
            place_at(alloc, files, path.as_str())
        }
        _ => Ok(None),
    }
}

// What is none in the appup of a path.
fn place_at<F: Files>(
    alloc: Global,
    files: &F,
    path: &str,
) -> Result<Option<ShapeFault>, AllocError>
    ensures { IfOk result (PlaceAt (F.gives files.now) path.now) }
{
    match files.read(alloc, path) {
        Ok(bytes) => place_in(alloc, bytes.as_slice()),
        Err(FilesError::NoMemory) => Err(AllocError),
        Err(_) => Ok(None),
    }
}

fn place_in(alloc: Global, bytes: &[u8]) -> Result<Option<ShapeFault>, AllocError>
    ensures { IfOk result (PlaceIn bytes.now) }
{
    match read_one_term(alloc, bytes) {
        Ok(file) => shape_fault(alloc, &file.term),
        Err(fault) => {
            unless_memory(fault)?;
            Ok(None)
        }
    }
}

// Missing memory says nothing of the bytes that were read; each other fault says that they haven't one term.
pub(crate) fn unless_memory(fault: FileFault) -> Result<(), AllocError>
    ensures { IfOk result (λ _. fault ≢ FileFault.NoMemory) }
{
    match fault {
        FileFault::NoMemory => Err(AllocError),
        _ => Ok(()),
    }
}

// The file that an error is about.
fn file_at_fault(
    alloc: Global,
    path: &str,
    new: Option<&RelupRelease>,
    why: &MakeError,
) -> Result<String, AllocError>
    ensures { IfOk result (λ file. string_bytes file
        ≡ file_at_fault path.now (option_map (λ r. relup_release_of r.now) new.entry) why.now) }
{
    match why {
        MakeError::Files(UnpackError::MissingFile(file)) => file.clone(),
        MakeError::Files(UnpackError::BadFile(file, _)) => file.clone(),
        MakeError::Files(UnpackError::VsnMismatch(file)) => file.clone(),
        MakeError::Pattern(pattern) => appup_named(alloc, path, new, pattern.app.as_str()),
        MakeError::Refused(found) => appup_named(alloc, path, new, found.app.as_str()),
        MakeError::Translation(TranslateError::NoAppup(app)) => {
            appup_named(alloc, path, new, app.as_str())
        }
        MakeError::Translation(TranslateError::NoEntry(app, _)) => {
            appup_named(alloc, path, new, app.as_str())
        }
        MakeError::Translation(TranslateError::Unsupported(app)) => {
            appup_named(alloc, path, new, app.as_str())
        }
        _ => String::from_str(alloc, path),
    }
}

// The appup of an application of the new release; the file of that release itself where it has no such application.
fn appup_named(
    alloc: Global,
    path: &str,
    new: Option<&RelupRelease>,
    name: &str,
) -> Result<String, AllocError>
    ensures { IfOk result (λ file. string_bytes file
        ≡ appup_named path.now (option_map (λ r. relup_release_of r.now) new.entry) name.now) }
{
    let app = match new {
        Some(release) => release.app_named(name),
        None => None,
    };
    match app {
        Some(app) => appup_path(alloc, app.name.as_str(), app.vsn.as_str()),
        None => String::from_str(alloc, path),
    }
}

/// Where the appup of an application stands.
pub(crate) fn appup_path(alloc: Global, name: &str, vsn: &str) -> Result<String, AllocError>
    ensures { IfOk result (λ path. string_bytes path ≡ appup_file name.now vsn.now) }
{
    format!(in alloc; "lib/{name}-{vsn}/ebin/{name}.appup")
}

fn place_text(alloc: Global, place: ShapeFault) -> Result<String, AllocError> {
    match place {
        ShapeFault::Outline => String::from_str(
            alloc,
            "this is no appup: write {Vsn, [Entry], [Entry]}, the upgrades first",
        ),
        ShapeFault::Entry(direction, entry) => {
            let direction = direction_text(direction);
            format!(in alloc;
                "{direction} {entry}: this is no entry of an appup: write {{Vsn, [Instruction]}}"
            )
        }
        ShapeFault::Instruction(direction, entry, number) => {
            let direction = direction_text(direction);
            format!(in alloc;
                "{direction} {entry}, instruction {number}: this is no instruction of an appup: look for a word, a purge mode, a timeout or a start type that is none"
            )
        }
    }
}

fn error_text(alloc: Global, why: &MakeError) -> Result<String, AllocError> {
    match why {
        MakeError::Files(why) => file_text(alloc, why),
        MakeError::Pattern(pattern) => pattern_text(alloc, pattern),
        MakeError::Translation(why) => fault_text(alloc, why),
        MakeError::Refused(found) => found_text(alloc, found),
        MakeError::TooDeep => String::from_str(
            alloc,
            "over 64 brackets would be open at once in the relup, and could not be read: make the terms of instructions less deep",
        ),
        MakeError::NoMemory => String::from_str(alloc, "out of memory"),
    }
}

fn file_text(alloc: Global, why: &UnpackError) -> Result<String, AllocError> {
    match why {
        UnpackError::MissingFile(_) => String::from_str(alloc, "there is no such file"),
        UnpackError::BadFile(_, FileTrouble::Unreadable) => {
            String::from_str(alloc, "the file can't be read")
        }
        UnpackError::BadFile(_, trouble) => format!(in alloc; "{trouble}"),
        UnpackError::VsnMismatch(_) => String::from_str(
            alloc,
            "the file is of another application or version than its path says",
        ),
        UnpackError::TooMany => String::from_str(
            alloc,
            "a file has over 1,048,576 bytes, a release over 64 applications, or one over 1,024 modules",
        ),
        why => format!(in alloc; "{why}"),
    }
}

fn direction_text(direction: Direction) -> &'static str {
    match direction {
        Direction::Up => "upgrade",
        Direction::Down => "downgrade",
    }
}

fn pattern_fault_text(fault: PatternFault) -> &'static str {
    match fault {
        PatternFault::NoPattern => "the version is no regular expression of the crate regex",
        PatternFault::Ambiguous =>
            "OTP reads this regular expression in another way than the crate regex",
        PatternFault::TooBig => "the regular expression is too big",
    }
}

fn pattern_text(alloc: Global, pattern: &BadPattern) -> Result<String, AllocError> {
    let direction = direction_text(pattern.direction);
    let number = pattern.place.saturating_add(1);
    let fault = pattern_fault_text(pattern.fault);
    format!(in alloc; "{direction} {number}: {fault}: write it in another way")
}

fn fault_text(alloc: Global, why: &TranslateError) -> Result<String, AllocError> {
    match why {
        TranslateError::NoAppup(_) => {
            String::from_str(
                alloc,
                "there is no such file, and the application has another version",
            )
        }
        TranslateError::NoEntry(_, vsn) => {
            format!(in alloc; "no entry is for version {vsn}: add one")
        }
        TranslateError::UnknownModule(name) => format!(in alloc;
            "an appup has an instruction for the module {name}, and no application of the target has it"
        ),
        TranslateError::Unsupported(_) => String::from_str(
            alloc,
            "an instruction is point_of_no_return, or for an application that isn't there: take it out",
        ),
        why => format!(in alloc; "{why}"),
    }
}

fn found_text(alloc: Global, found: &FoundInstr) -> Result<String, AllocError> {
    let direction = direction_text(found.direction);
    let release = &found.release;
    let number = found.number;
    let what = &found.what;
    let place = match found.direction {
        Direction::Up => "from",
        Direction::Down => "to",
    };
    format!(in alloc; "{direction} {place} {release}, instruction {number}: {what}")
}
