//! The appups of a release's applications.
ghost use Rattle.std.specs.Prelude.{◌≡◌, ◌≢◌, Ok, Err, IfErr, IfOk, OnOk, map, string_bytes};
ghost use Rattle.std.specs.Option.{option_map};
ghost use Rattle.appup_file.specs.Instruction.{appup_of};
ghost use Rattle.rel_unpack.specs.Order.{Answers, Each};
ghost use Rattle.rel_unpack.specs.Refusal.{refusal_of};
ghost use Rattle.rel_unpack.specs.Refusal.Refusal.{bad_file};
ghost use Rattle.rel_unpack.specs.Source.{FileSays};
ghost use Rattle.relup_row.specs.Release.{relup_app_of};
ghost use Rattle.relup_command.specs.Appups.{AppupAt, WithAppup, appup_form, appup_path, appup_trouble};

use appup_file::{Appup, AppupFault, read_appup};
use file_source::Files;
use rel_files::FileFault;
use rel_unpack::{FileTrouble, UnpackError, read_bytes, unless_missing};
use relup_translate::RelupApp;
use std::alloc::{AllocError, Global};

/// Gives each application the appup of its file, in their order.
pub(crate) fn read_appups<F: Files>(
    alloc: Global,
    files: &F,
    apps: &mut [RelupApp],
) -> Result<(), UnpackError>
    ensures read { OnOk result (Each (WithAppup (F.gives files.now)) (map relup_app_of apps.old)
        (Ok (map relup_app_of apps.new))) }
    ensures refused { IfErr result (λ e. e ≢ UnpackError.NoMemory →
        Each (WithAppup (F.gives files.now)) (map relup_app_of apps.old) (Err (refusal_of e))) }
{
    for app in apps.iter_mut() {
        app.appup = read_appup_of(alloc, files, app)?;
    }
    Ok(())
}

// The appup of an application: without a file it has none.
fn read_appup_of<F: Files>(
    alloc: Global,
    files: &F,
    app: &RelupApp,
) -> Result<Option<Appup>, UnpackError>
    ensures { Answers (λ appup. option_map appup_of appup)
        (AppupAt (F.gives files.now) (relup_app_of app.now)) result }
{
    let path = appup_path(alloc, app)?;
    match appup_in(alloc, files, path.as_str()) {
        Ok(appup) => Ok(Some(appup)),
        Err(error) => unless_missing(error),
    }
}

fn appup_in<F: Files>(alloc: Global, files: &F, path: &str) -> Result<Appup, UnpackError>
    ensures { Answers appup_of (FileSays appup_form (F.gives files.now) path.now) result }
{
    let bytes = read_bytes(alloc, files, path)?;
    match read_appup(alloc, bytes.as_slice()) {
        Ok(appup) => Ok(appup),
        Err(fault) => Err(refusal_for(alloc, path, fault)),
    }
}

// The refusal that reports a file's fault, where memory isn't what was wanting.
fn refusal_for(alloc: Global, path: &str, fault: AppupFault) -> UnpackError
    ensures { result ≢ UnpackError.NoMemory → (fault ≢ AppupFault.NoMemory)
        × (refusal_of result ≡ bad_file path.now (appup_trouble fault)) }
{
    let trouble = match fault {
        AppupFault::BadTerm(fault) => FileTrouble::Fault(FileFault::BadTerm(fault)),
        AppupFault::BadShape => FileTrouble::Misshapen,
        AppupFault::NoMemory => return UnpackError::NoMemory,
    };
    match String::from_str(alloc, path) {
        Ok(path) => UnpackError::BadFile(path, trouble),
        Err(_) => UnpackError::NoMemory,
    }
}

// Where the appup of an application stands.
fn appup_path(alloc: Global, app: &RelupApp) -> Result<String, AllocError>
    ensures { IfOk result (λ path. string_bytes path ≡ appup_path (relup_app_of app.now)) }
{
    let name = app.name.as_str();
    let vsn = app.vsn.as_str();
    format!(in alloc; "lib/{name}-{vsn}/ebin/{name}.appup")
}
