//! Files of releases and of applications.
ghost use Rattle.std.specs.Prelude.{◌≤◌, IfOk, length};

use file_source::{Files, FilesError};
use std::alloc::Global;
use text_cases::{Answer, number};

/// Each path of a release names the release that its file has, and each path below `lib` is that of
/// an application without modules. The path `missing` has no file, nor has the application `gone`.
/// A release has a relup where its file stands in a folder `up`, as that of `B/up/r`: there is a
/// script up from `A` and from `B`, and one down to `A`. So it has where it stands in a folder `re`:
/// these scripts end with a restart. The application `worker` has a worker at its top.
#[derive(Clone, Copy)]
pub(crate) struct ReleaseFiles;

impl Files for ReleaseFiles {
    ghost gives = { λ files path found. Unit {0} };

    fn read(&self, alloc: Global, path: &str) -> Result<Vec<u8>, FilesError> {
        match path {
            "missing" | "relup" | "lib/gone-1/ebin/gone.app" => Err(FilesError::Missing),
            _ if lacks_relup(path) => Err(FilesError::Missing),
            "unreadable" => Err(FilesError::Unreadable),
            "large" => Err(FilesError::TooLarge),
            _ => bytes_at(alloc, path),
        }
    }
}

// Whether the path is that of a relup, and no release is in its folder that has one.
fn lacks_relup(path: &str) -> bool {
    path.ends_with("/relup") && !path.ends_with("/up/relup") && !path.ends_with("/re/relup")
}

// The bytes of such a file.
fn bytes_at(alloc: Global, path: &str) -> Result<Vec<u8>, FilesError>
    ensures { IfOk result (λ bytes. length bytes.items ≤ 1048576) }
{
    let mut answer = Answer::new(alloc);
    push_file(path, &mut answer);
    let Ok(text) = answer.finish() else {
        return Err(FilesError::NoMemory);
    };
    if text.len() > 1_048_576 {
        return Err(FilesError::TooLarge);
    }
    Ok(text.into_bytes())
}

// An application that a worker is to start.
const WORKER_APP: &str = r#"{application,worker,[{vsn,"1"},{modules,[top]},{mod,{top,[]}}]}."#;

const WORKER: &str = r#"{worker,top,"1",0,[]}."#;

// Appends the text of a file that is there.
fn push_file(path: &str, answer: &mut Answer) {
    match path.strip_prefix("lib/") {
        None => push_of_release(path, answer),
        Some("worker-1/ebin/worker.app") => answer.push(WORKER_APP),
        Some("worker-1/ebin/top.mod") => answer.push(WORKER),
        Some(folder) => push_app(folder, answer),
    }
}

// Appends that of the file of a release, or of its relup.
fn push_of_release(path: &str, answer: &mut Answer) {
    if let Some(vsn) = path.strip_suffix("/up/relup") {
        push_relup(vsn, "[]", answer);
    } else if let Some(vsn) = path.strip_suffix("/re/relup") {
        push_relup(vsn, "[point_of_no_return,restart_emulator]", answer);
    } else {
        push_rel(path, answer);
    }
}

// Appends that of the relup of the release of this version, with this text of its scripts.
fn push_relup(vsn: &str, script: &str, answer: &mut Answer) {
    answer.push_after(r#"{""#, vsn);
    answer.push_after(r#"",[{"A",[],"#, script);
    answer.push_after(r#"},{"B",[],"#, script);
    answer.push_after(r#"}],[{"A",[],"#, script);
    answer.push("}]}.");
}

// Appends that of the file of a release: of `A` with the application `app0`, of `A/65` with 65, of
// `A/:gone` with the application `gone`. It ends within its term where the release is `torn`.
fn push_rel(release: &str, answer: &mut Answer) {
    let (vsn, apps) = release.split_once('/').unwrap_or((release, "1"));
    answer.push_after(r#"{release,{"ch_rel",""#, vsn);
    push_apps(apps, answer);
    answer.push(if release == "torn" { "]}" } else { "]}." });
}

fn push_apps(apps: &str, answer: &mut Answer) {
    let first = apps.strip_prefix(':').unwrap_or("app0");
    answer.push_after(r#""},{erts,"14.2"},[{"#, first);
    answer.push(r#","1"}"#);
    for app in 1..number(apps) {
        let done = write!(answer.text, r#",{{app{app},"1"}}"#);
        answer.note(done);
    }
}

// Appends that of the file of an application without modules, of such a folder.
fn push_app(folder: &str, answer: &mut Answer) {
    let (name, _rest) = folder.split_once('-').unwrap_or((folder, ""));
    answer.push_after("{application,", name);
    answer.push(r#",[{vsn,"1"}]}."#);
}
