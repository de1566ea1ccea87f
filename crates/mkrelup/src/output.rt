//! Where the text of a relup goes.
ghost use Rattle.std.specs.Prelude.{◌≡◌, ◌++◌, codes, IfOk, IfErr, OnOk, OnErr, string_bytes};
ghost use Rattle.std.specs.Io.KnownBytes.{Appends};
ghost use Rattle.counted_io.specs.Counted.{held_by};
ghost use Rattle.mkrelup.specs.Output.{PutsFile, PutsOutput, LeavesFile, file, beside, given_destination, destination_form, destination_of};

use crate::failure::Failure;
use crate::options::Options;
use counted_io::CountedWriter;
use file_replacement::{NewFiles, replace_file};
use std::alloc::{AllocError, Global};
use std::io::Write;

/// Where the text of a relup goes.
#[derive(Drop)]
pub(crate) enum Destination {
    /// Nothing is written.
    Nowhere,
    /// Standard output.
    Output,
    /// The file of this path.
    File(String),
}

/// Where the options have the text go.
pub(crate) fn destination_of(alloc: Global, options: &Options) -> Result<Destination, AllocError>
    ensures { IfOk result (λ d. destination_form d ≡ destination_of options.now) }
{
    if options.check {
        Ok(Destination::Nowhere)
    } else {
        given_destination(alloc, options)
    }
}

fn given_destination(alloc: Global, options: &Options) -> Result<Destination, AllocError>
    ensures { IfOk result (λ d. destination_form d ≡ given_destination options.now) }
{
    match &options.out {
        Some(file) => {
            if file.as_str() == "-" {
                Ok(Destination::Output)
            } else {
                Ok(Destination::File(file.clone()?))
            }
        }
        None => {
            let path = beside(alloc, options.root.as_str(), options.new.as_str())?;
            Ok(Destination::File(path))
        }
    }
}

// The path of `relup` beside a `.rel` file below a folder.
fn beside(alloc: Global, root: &str, new: &str) -> Result<String, AllocError>
    ensures { IfOk result (λ path. string_bytes path ≡ beside root.now new.now) }
{
    match new.rsplit_once('/') {
        Some((folder, _name)) => format!(in alloc; "{root}/{folder}/relup"),
        None => format!(in alloc; "{root}/relup"),
    }
}

/// Puts the text where it goes.
pub(crate) fn put_text<H: NewFiles, W: Write>(
    alloc: Global,
    folder: &mut H,
    output: &mut CountedWriter<W>,
    destination: &Destination,
    text: &str,
) -> Result<(), Failure>
    ensures file { OnOk result
        (PutsFile H.did (destination_form destination.now) text.now folder.old folder.new) }
    ensures output { OnOk result (PutsOutput (destination_form destination.now) text.now
        (held_by W.contents output.old) (held_by W.contents output.new)) }

    // Where the file isn't replaced, what was there before stays, as `file_replacement` says; else no file is touched.
    ensures left { IfErr result (λ e. LeavesFile H.did H.failed
        (destination_form destination.now) e text.now folder.old folder.new) }
{
    match destination {
        Destination::Nowhere => Ok(()),
        Destination::Output => match output.write(text.as_bytes()) {
            Ok(()) => Ok(()),
            Err(_) => Err(Failure::Output),
        },
        Destination::File(path) => put_file(alloc, folder, path.as_str(), text),
    }
}

fn put_file<H: NewFiles>(
    alloc: Global,
    folder: &mut H,
    path: &str,
    text: &str,
) -> Result<(), Failure>
    ensures file { OnOk result
        (PutsFile H.did (file path.now) text.now folder.old folder.new) }
    ensures left { IfErr result (λ e. LeavesFile H.did H.failed (file path.now) e
        text.now folder.old folder.new) }
{
    let owned = String::from_str(alloc, path)?;
    let new = format!(in alloc; "{path}.new")?;
    match replace_file(folder, path, new.as_str(), text.as_bytes()) {
        Ok(()) => Ok(()),
        Err(error) => Err(Failure::Unwritten(owned, error)),
    }
}
