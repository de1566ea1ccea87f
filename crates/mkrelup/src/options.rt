//! The options of the program.
ghost use Rattle.std.specs.Prelude.{◌≡◌, List, [], map, true, false, IfOk, IfErr, option_map, unwrap_or, string_bytes};
ghost use Rattle.clap.specs.Words.{HasMatchesOf, Text, app_of, fault_of, kind_of, rule_of};
ghost use Rattle.mkrelup.specs.Options.{mkrelup, mkrelup_alone, value_rule, values_rule, flag_rule, release_rule, IsGiven, IsAnswer, error_of, answer_status};
ghost use Rattle.mkrelup.specs.declared.options.OptionsError.TheVariants.{NoMemory};

use clap::error::ErrorKind;
use clap::{Arg, ArgAction, ArgMatches, Command};
use std::alloc::{AllocError, Global};
use std::convert::AsStr;

/// What the program is given.
#[derive(Drop)]
pub(crate) struct Options {
    /// The `.rel` file of the release, below `root`, as are the others.
    pub(crate) new: String,
    pub(crate) ups: Vec<String>,
    pub(crate) downs: Vec<String>,
    pub(crate) root: String,
    pub(crate) out: Option<String>,
    pub(crate) restart: bool,
    pub(crate) check: bool,
}

/// Why there are no options.
#[derive(Drop)]
pub(crate) enum OptionsError {
    /// `clap` answers the arguments itself: with a help text, a version, or a mistake.
    Answered(clap::Error),
    NoMemory,
}

impl From<AllocError> for OptionsError {
    ghost from_gives = { λ _ e. e ≡ NoMemory };

    fn from(_: AllocError) -> OptionsError {
        OptionsError::NoMemory
    }
}

impl From<clap::Error> for OptionsError {
    ghost from_gives = { λ e f. f ≡ error_of e (kind_of e) };

    fn from(error: clap::Error) -> OptionsError {
        match error.kind() {
            ErrorKind::OutOfMemory => OptionsError::NoMemory,
            _ => OptionsError::Answered(error),
        }
    }
}

/// The exit status of what `clap` answers.
pub(crate) fn answer_status(error: &clap::Error) -> u8
    ensures { result ≡ answer_status (kind_of error.now) }
{
    match error.kind() {
        ErrorKind::DisplayHelp | ErrorKind::DisplayVersion => 0,
        _ => 2,
    }
}

/// Reads the arguments after the program's name, as `clap` does.
pub(crate) fn read_options<'a, S: AsStr>(
    alloc: Global,
    words: &'a [S],
) -> Result<Options, OptionsError>
    // The options are those that the words mean, and clap finds no fault with the words.
    ensures given { IfOk result (IsGiven (map S.text words.now)) }
    ensures taken { IfOk result (λ _. fault_of mkrelup (map S.text words.now) ≡ []) }

    // An answer is one that clap has for the words.
    ensures answered { IfErr result (IsAnswer (fault_of mkrelup (map S.text words.now))) }
{
    let matches = command(alloc)?.try_get_matches_from(words)?;
    Ok(options_of(alloc, &matches)?)
}

// The command that clap reads.
fn command<'a>(alloc: Global) -> Result<Command<'a>, AllocError>
    ensures { IfOk result (λ command. app_of command ≡ mkrelup) }
{
    bare_command(alloc)
        .arg(value_option(alloc, "root", "DIR", "Read files below this folder"))?
        .arg(values_option(alloc, "up", "REL", "An upgrade from this release"))?
        .arg(values_option(alloc, "down", "REL", "A downgrade to this release"))?
        .arg(flag(
            alloc,
            "restart-emulator",
            "Restart the runtime system at the end of each script",
        ))?
        .arg(value_option(
            alloc,
            "out",
            "FILE",
            "Write this file, - for standard output",
        ))?
        .arg(flag(alloc, "check", "Write nothing"))?
        .arg(release(alloc))
}

fn bare_command<'a>(alloc: Global) -> Command<'a>
    ensures { app_of result ≡ mkrelup_alone }
{
    Command::new(alloc, "mkrelup")
        .no_binary_name(true)
        .about("Makes the relup of a release from the appups of its applications")
        .version("1")
}

// The option `--NAME VALUE`.
fn value_option<'a>(alloc: Global, name: &'a str, value: &'a str, help: &'a str) -> Arg<'a>
    ensures rule { rule_of result ≡ value_rule name.entry.now }
    ensures local { result.global ≡ false }
{
    Arg::new(alloc, name)
        .long(name)
        .value_name(value)
        .help(help)
}

// The same, which may be given several times.
fn values_option<'a>(alloc: Global, name: &'a str, value: &'a str, help: &'a str) -> Arg<'a>
    ensures rule { rule_of result ≡ values_rule name.entry.now }
    ensures local { result.global ≡ false }
{
    Arg::new(alloc, name)
        .long(name)
        .value_name(value)
        .help(help)
        .action(ArgAction::Append)
}

// The option `--NAME`.
fn flag<'a>(alloc: Global, name: &'a str, help: &'a str) -> Arg<'a>
    ensures rule { rule_of result ≡ flag_rule name.entry.now }
    ensures local { result.global ≡ false }
{
    Arg::new(alloc, name)
        .long(name)
        .help(help)
        .action(ArgAction::SetTrue)
}

// The word that is no option.
fn release<'a>(alloc: Global) -> Arg<'a>
    ensures rule { rule_of result ≡ release_rule }
    ensures local { result.global ≡ false }
{
    Arg::new(alloc, "NEW.rel")
        .help("The .rel file of the release")
        .required(true)
}

// The options that clap found.
fn options_of(alloc: Global, matches: &ArgMatches<'_>) -> Result<Options, AllocError>
    ensures { (words : List Text) → HasMatchesOf mkrelup words matches.now
        → IfOk result (IsGiven words) }
{
    let new = text_or(alloc, matches.get_str("NEW.rel"), "")?;
    let ups = texts(alloc, matches.get_strs("up"))?;
    let downs = texts(alloc, matches.get_strs("down"))?;
    let root = text_or(alloc, matches.get_str("root"), ".")?;
    let out = text(alloc, matches.get_str("out"))?;
    let restart = matches.get_flag("restart-emulator");
    let check = matches.get_flag("check");
    Ok(Options {
        new,
        ups,
        downs,
        root,
        out,
        restart,
        check,
    })
}

fn text_or(alloc: Global, text: Option<&str>, default: &str) -> Result<String, AllocError>
    ensures { IfOk result (λ copy.
        string_bytes copy ≡ unwrap_or (option_map (λ t. t.now) text.entry) default.now) }
{
    match text {
        Some(text) => String::from_str(alloc, text),
        None => String::from_str(alloc, default),
    }
}

fn text(alloc: Global, text: Option<&str>) -> Result<Option<String>, AllocError>
    ensures { IfOk result (λ copy.
        option_map string_bytes copy ≡ option_map (λ t. t.now) text.entry) }
{
    match text {
        Some(text) => Ok(Some(String::from_str(alloc, text)?)),
        None => Ok(None),
    }
}

fn texts(alloc: Global, given: Option<&[&str]>) -> Result<Vec<String>, AllocError>
    ensures { IfOk result (λ v. map string_bytes v.items
        ≡ unwrap_or (option_map (λ ts. map (λ t. t.now) ts.now) given.entry) []) }
{
    match given {
        Some(given) => copies(alloc, given),
        None => Ok(Vec::new(alloc)),
    }
}

fn copies(alloc: Global, given: &[&str]) -> Result<Vec<String>, AllocError>
    ensures { IfOk result (λ v. map string_bytes v.items ≡ map (λ t. t.now) given.now) }
{
    let mut texts = Vec::new(alloc);
    for text in given {
        texts.push(String::from_str(alloc, text)?)?;
    }
    Ok(texts)
}
