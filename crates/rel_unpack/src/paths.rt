//! Where the files of a release stand.
ghost use Rattle.std.specs.Prelude.{◌≡◌, IfOk, string_bytes};
ghost use Rattle.rel_files.specs.Release.{application_of};
ghost use Rattle.rel_unpack.specs.Paths.{app_path, mod_path};
ghost use Rattle.rel_unpack.specs.Relup.{relup_path};

use rel_files::RelApp;
use std::alloc::{AllocError, Global};

// The file of an application.
pub(crate) fn app_path(alloc: Global, app: &RelApp) -> Result<String, AllocError>
    ensures { IfOk result (λ path. string_bytes path ≡ app_path (application_of app.now)) }
{
    let name = app.name.as_str();
    let vsn = app.vsn.as_str();
    format!(in alloc; "lib/{name}-{vsn}/ebin/{name}.app")
}

// The file of a module.
pub(crate) fn mod_path(alloc: Global, app: &RelApp, name: &str) -> Result<String, AllocError>
    ensures { IfOk result (λ path.
        string_bytes path ≡ mod_path (application_of app.now) name.now) }
{
    let folder = app.name.as_str();
    let vsn = app.vsn.as_str();
    format!(in alloc; "lib/{folder}-{vsn}/ebin/{name}.mod")
}

// The relup beside the `.rel` file of a path.
pub(crate) fn relup_path(alloc: Global, path: &str) -> Result<String, AllocError>
    ensures { IfOk result (λ beside. string_bytes beside ≡ relup_path path.now) }
{
    match path.rsplit_once('/') {
        Some((folder, _name)) => format!(in alloc; "{folder}/relup"),
        None => String::from_str(alloc, "relup"),
    }
}
