// The releases that records make, as a report shows them.
ghost use Rattle.std.specs.Prelude.{◌≡◌, ◌++◌, map, OnOk, IfOk};
ghost use Rattle.rel_list.specs.Keyed.{entry_of};
ghost use Rattle.store_report.specs.Lines.{release_line, releases_text};
ghost use Rattle.store_report.specs.List.{ShowsList};

use crate::lines::{push_number, push_text};
use rel_list::{ListedRelease, ReleaseList};
use rel_records::{RecordsError, read_list};
use std::alloc::{AllocError, Global};

// Puts the releases at the end that these records of a store of this format make, or the number of the first bad record. The
// answer is whether they make a list.
pub(crate) fn push_list(
    alloc: Global,
    text: &mut Vec<u8>,
    format: u8,
    records: &[Vec<u8>],
) -> Result<bool, AllocError>
    ensures { IfOk result
        (ShowsList format (map (λ v. v.items) records.now) text.old.items text.new.items) }
{
    match read_list(alloc, format, records) {
        Ok(list) => {
            push_releases(alloc, text, &list)?;
            push_text(text, "sound\n")?;
            Ok(true)
        }
        Err(RecordsError::BadRecord(number)) => {
            push_number(alloc, text, "bad record", number)?;
            Ok(false)
        }
        Err(RecordsError::NoMemory) => Err(AllocError),
    }
}

// Puts a line for each release at the end.
fn push_releases(alloc: Global, text: &mut Vec<u8>, list: &ReleaseList) -> Result<(), AllocError>
    ensures { OnOk result (text.new.items ≡ text.old.items ++ releases_text list.now) }
{
    let entries = list.releases();
    for listed in entries {
        push_release(alloc, text, listed)?;
    }
    Ok(())
}

// Puts the line of a release at the end.
fn push_release(alloc: Global, text: &mut Vec<u8>, listed: &ListedRelease) -> Result<(), AllocError>
    ensures { OnOk result
        (text.new.items ≡ text.old.items ++ release_line (entry_of listed.now)) }
{
    let vsn = listed.release.vsn.as_str();
    let status = listed.status.as_str();
    let line = format!(in alloc; "release {vsn} {status}\n")?;
    push_text(text, line.as_str())
}
