//! Copies of releases without what asks for another runtime system.
ghost use Rattle.std.specs.Prelude.{◌≡◌, ◌++◌, IfOk, OnOk, map, filter, not, string_bytes};
ghost use Rattle.std.specs.Option.{option_map};
ghost use Rattle.appup_file.specs.Instruction.{appup_of, entry_of, row_of, version_of};
ghost use Rattle.relup_row.specs.Release.{relup_app_of, relup_release_of};
ghost use Rattle.runtime_change.specs.Settled.{settled_row, settled_entry, settled_appup, settled_app, settled};

use crate::runtime::asks_new;
use appup_file::{Appup, AppupEntry, AppupInstr, OtherVersion};
use appup_plain::copy_appup_instr;
use relup_row::{ModuleNames, RelupApp, RelupRelease};
use std::alloc::{AllocError, Global};

fn settled_row(alloc: Global, row: &[AppupInstr]) -> Result<Vec<AppupInstr>, AllocError>
    ensures { IfOk result (λ v. row_of v.items ≡ settled_row (row_of row.now)) }
{
    let mut settled = Vec::with_capacity(alloc, row.len())?;
    for instr in row {
        if !asks_new(instr) {
            settled.push(copy_appup_instr(alloc, instr)?)?;
        }
    }
    Ok(settled)
}

fn copy_version(alloc: Global, vsn: &OtherVersion) -> Result<OtherVersion, AllocError>
    ensures { IfOk result (λ v. version_of v ≡ version_of vsn.now) }
{
    match vsn {
        OtherVersion::Text(text) => Ok(OtherVersion::Text(text.clone()?)),
        OtherVersion::Pattern(bytes) => Ok(OtherVersion::Pattern(Vec::from_slice(alloc, bytes)?)),
    }
}

fn settled_entry(alloc: Global, entry: &AppupEntry) -> Result<AppupEntry, AllocError>
    ensures { IfOk result (λ e. entry_of e ≡ settled_entry (entry_of entry.now)) }
{
    Ok(AppupEntry {
        vsn: copy_version(alloc, &entry.vsn)?,
        instrs: settled_row(alloc, &entry.instrs)?,
    })
}

fn settled_entries(alloc: Global, entries: &[AppupEntry]) -> Result<Vec<AppupEntry>, AllocError>
    ensures { IfOk result (λ v.
        map entry_of v.items ≡ map settled_entry (map entry_of entries.now)) }
{
    let mut settled = Vec::with_capacity(alloc, entries.len())?;
    for entry in entries {
        settled.push(settled_entry(alloc, entry)?)?;
    }
    Ok(settled)
}

// The appup of an application in this version.
fn settled_appup(alloc: Global, vsn: &String, appup: &Appup) -> Result<Appup, AllocError>
    ensures { IfOk result (λ p.
        appup_of p ≡ settled_appup (string_bytes vsn.now) (appup_of appup.now)) }
{
    Ok(Appup {
        vsn: vsn.clone()?,
        ups: settled_entries(alloc, &appup.ups)?,
        downs: settled_entries(alloc, &appup.downs)?,
    })
}

fn settled_appup_of(alloc: Global, app: &RelupApp) -> Result<Option<Appup>, AllocError>
    ensures { IfOk result (λ o. option_map appup_of o
        ≡ option_map (settled_appup (relup_app_of app.now).vsn) (relup_app_of app.now).appup) }
{
    match &app.appup {
        Some(appup) => Ok(Some(settled_appup(alloc, &app.vsn, appup)?)),
        None => Ok(None),
    }
}

fn copy_names(alloc: Global, names: &[String]) -> Result<Vec<String>, AllocError>
    ensures { IfOk result (λ v. map string_bytes v.items ≡ map string_bytes names.now) }
{
    let mut copied = Vec::with_capacity(alloc, names.len())?;
    for name in names {
        copied.push(name.clone()?)?;
    }
    Ok(copied)
}

fn copy_modules(alloc: Global, modules: &ModuleNames) -> Result<ModuleNames, AllocError>
    ensures { IfOk result (λ copy. copy ≡ modules.now) }
{
    ModuleNames::new(alloc, copy_names(alloc, modules.as_slice())?)
}

fn settled_app(alloc: Global, app: &RelupApp) -> Result<RelupApp, AllocError>
    ensures { IfOk result (λ a. relup_app_of a ≡ settled_app (relup_app_of app.now)) }
{
    Ok(RelupApp {
        name: app.name.clone()?,
        vsn: app.vsn.clone()?,
        start: app.start,
        modules: copy_modules(alloc, &app.modules)?,
        appup: settled_appup_of(alloc, app)?,
    })
}

fn settled_apps(alloc: Global, apps: &[RelupApp]) -> Result<Vec<RelupApp>, AllocError>
    ensures { IfOk result (λ v.
        map relup_app_of v.items ≡ map settled_app (map relup_app_of apps.now)) }
{
    let mut settled = Vec::with_capacity(alloc, apps.len())?;
    for app in apps {
        settled.push(settled_app(alloc, app)?)?;
    }
    Ok(settled)
}

/// The release with appups that ask for no other runtime system and count in each version, for this version of the runtime system.
pub(crate) fn settled_release(
    alloc: Global,
    release: &RelupRelease,
    erts: &String,
) -> Result<RelupRelease, AllocError>
    ensures { IfOk result (λ r.
        relup_release_of r ≡ settled (string_bytes erts.now) (relup_release_of release.now)) }
{
    Ok(RelupRelease {
        vsn: release.vsn.clone()?,
        erts: erts.clone()?,
        apps: settled_apps(alloc, &release.apps)?,
    })
}
