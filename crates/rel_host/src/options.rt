// The options of the program.
ghost use Rattle.std.specs.Prelude.{◌≡◌, List, [], map, true, false, IfOk, IfErr, option_map, string_bytes};
ghost use Rattle.clap.specs.Words.{HasMatchesOf, Text, app_of, fault_of, takes, kind_of, rule_of};
ghost use Rattle.rel_host.specs.Options.{relnode, relnode_alone, option_rule, IsGiven, refusal_of};
ghost use Rattle.rel_host.specs.declared.options.OptionsError.TheVariants as refusal;

use clap::error::ErrorKind;
use clap::{Arg, ArgMatches, Command};
use std::alloc::{AllocError, Global};
use std::convert::AsStr;
use thiserror::Error;

/// What `relnode [--store FILE] [--root DIR]` is given.
#[derive(Debug, Drop)]
pub struct Options {
    /// The file of the store.
    pub store: Option<String>,
    /// The folder below which files are read.
    pub root: Option<String>,
}

/// Why there are no options.
#[derive(Clone, Copy, Debug, PartialEq, Eq, Error)]
pub enum OptionsError {
    /// The arguments are none of `relnode [--store FILE] [--root DIR]`.
    #[error("bad arguments")]
    BadArguments,
    /// No memory was left. It says nothing of the arguments.
    #[error("out of memory")]
    NoMemory,
}

impl From<AllocError> for OptionsError {
    ghost from_gives = { λ _ e. e ≡ refusal.NoMemory };

    fn from(_: AllocError) -> OptionsError {
        OptionsError::NoMemory
    }
}

impl From<clap::Error> for OptionsError {
    ghost from_gives = { λ e f. f ≡ refusal_of (kind_of e) };

    fn from(error: clap::Error) -> OptionsError {
        match error.kind() {
            ErrorKind::OutOfMemory => OptionsError::NoMemory,
            _ => OptionsError::BadArguments,
        }
    }
}

/// Reads the arguments after the program's name, as `clap` does. Each option may be given once, as `--store FILE` or as
/// `--store=FILE`.
pub fn read_options<'a, S: AsStr>(alloc: Global, words: &'a [S]) -> Result<Options, OptionsError>
    // The options are those that the words mean, and clap finds no fault with the words.
    ensures given { IfOk result (IsGiven (map S.text words.now)) }
    ensures taken { IfOk result (λ _. fault_of relnode (map S.text words.now) ≡ []) }

    // Words that clap takes are refused only where memory runs out.
    ensures refused { IfErr result (λ e. takes relnode (map S.text words.now) ≡ true
        → e ≡ OptionsError.NoMemory) }
{
    let matches = command(alloc)?.try_get_matches_from(words)?;
    Ok(options_of(alloc, &matches)?)
}

// The options that clap found.
fn options_of(alloc: Global, matches: &ArgMatches<'_>) -> Result<Options, AllocError>
    ensures { (words : List Text) → HasMatchesOf relnode words matches.now
        → IfOk result (IsGiven words) }
{
    let store = owned(alloc, matches.get_str("store"))?;
    let root = owned(alloc, matches.get_str("root"))?;
    Ok(Options { store, root })
}

// The command that clap reads.
fn command<'a>(alloc: Global) -> Result<Command<'a>, AllocError>
    ensures { IfOk result (λ command. app_of command ≡ relnode) }
{
    bare_command(alloc)
        .arg(option(alloc, "store"))?
        .arg(option(alloc, "root"))
}

fn bare_command<'a>(alloc: Global) -> Command<'a>
    ensures { app_of result ≡ relnode_alone }
{
    Command::new(alloc, "relnode")
        .no_binary_name(true)
        .disable_help_flag(true)
}

// The option `--NAME VALUE`.
fn option<'a>(alloc: Global, name: &'a str) -> Arg<'a>
    ensures rule { rule_of result ≡ option_rule name.entry.now }
    ensures local { result.global ≡ false }
{
    Arg::new(alloc, name).long(name)
}

fn owned(alloc: Global, text: Option<&str>) -> Result<Option<String>, AllocError>
    ensures { IfOk result (λ copy.
        option_map string_bytes copy ≡ option_map (λ t. t.now) text.entry) }
{
    match text {
        Some(text) => Ok(Some(String::from_str(alloc, text)?)),
        None => Ok(None),
    }
}
