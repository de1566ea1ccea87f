//! Relups of files.
ghost use Rattle.std.specs.Prelude.{◌≡◌, IfOk, length};

use crate::texts::push_relup;
use relup_command::make_relup_of_files;
use std::alloc::{AllocError, Global};
use text_cases::{Answer, CaseFiles};

/// The relup of the files of a text: a line for each, its path, a blank and its bytes. The release is that of `new.rel`.
///
/// `up_of_files`: up to it from that of `old.rel`. `down_of_files`: down from it to that one. `both_of_files`: both.
/// `two_of_files`: up from `old.rel` and from `older.rel`.
pub(crate) fn push_answer(alloc: Global, mode: &str, text: &str, answer: &mut Answer) {
    // How many of the older releases there are upgrades from, and downgrades to.
    let (ups, downs) = match mode {
        "up_of_files" => (1, 0),
        "down_of_files" => (0, 1),
        "both_of_files" => (1, 1),
        "two_of_files" => (2, 0),
        _ => return answer.push("no such mode"),
    };
    let Ok(paths) = old_paths(alloc) else {
        return answer.note_no_memory();
    };
    let files = CaseFiles {
        lines: text.as_bytes(),
    };
    let made = make_relup_of_files(alloc, &files, "new.rel", &paths[..ups], &paths[..downs]);
    push_relup(alloc, &made, answer);
}

// The paths of the older releases, that of the youngest first.
fn old_paths(alloc: Global) -> Result<Vec<String>, AllocError>
    ensures { IfOk result (λ paths. length paths.items ≡ 2) }
{
    let mut paths = Vec::new(alloc);
    paths.push(String::from_str(alloc, "old.rel")?)?;
    paths.push(String::from_str(alloc, "older.rel")?)?;
    Ok(paths)
}
