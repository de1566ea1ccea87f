//! Applications of terms: what an appup adds, removes or restarts.
ghost use Rattle.std.specs.Prelude.{◌≡◌, IfOk};
ghost use Rattle.std.specs.Option.{option_map};
ghost use Rattle.erl_term.specs.Value.{members_of};
ghost use Rattle.appup_file.specs.Instruction.{added_of, appup_instruction_of};
ghost use Rattle.appup_file.specs.Parts.{start_in, added_in, app_in};

use crate::{AddedApp, AppupInstr};
use erl_term::Term;
use rel_files::parts::word_in;
use rel_files::{StartType, start_of};
use std::alloc::{AllocError, Global};

// A start type; permanent where no type is written.
fn start_in(row: &[Term]) -> Option<StartType>
    ensures { result ≡ start_in (members_of row.now) }
{
    match row {
        [] => Some(StartType::Permanent),
        [start] => start_of(word_in(start)?),
        _ => None,
    }
}

// What is written after an application that is added.
pub(crate) fn added_in(
    alloc: Global,
    name: &str,
    row: &[Term],
) -> Result<Option<AddedApp>, AllocError>
    ensures { IfOk result (λ o.
        option_map added_of o ≡ added_in name.now (members_of row.now)) }
{
    let Some(start) = start_in(row) else {
        return Ok(None);
    };
    Ok(Some(AddedApp {
        name: String::from_str(alloc, name)?,
        start,
    }))
}

// An application that is removed or restarted; nothing is written after it.
pub(crate) fn app_in(
    alloc: Global,
    word: &str,
    name: &str,
    row: &[Term],
) -> Result<Option<AppupInstr>, AllocError>
    ensures { IfOk result (λ o.
        option_map appup_instruction_of o ≡ app_in word.now name.now (members_of row.now)) }
{
    if row.split_first().is_some() {
        return Ok(None);
    }
    match word {
        "remove_application" => {
            let name = String::from_str(alloc, name)?;
            Ok(Some(AppupInstr::RemoveApplication(name)))
        }
        "restart_application" => {
            let name = String::from_str(alloc, name)?;
            Ok(Some(AppupInstr::RestartApplication(name)))
        }
        _ => Ok(None),
    }
}
