//! The script of a direction before its translation: the instructions of the entries that it takes.
ghost use Rattle.std.specs.Prelude.{◌≡◌, ◌++◌, OnOk};
ghost use Rattle.appup_file.specs.Instruction.{row_of};
ghost use Rattle.relup_lint.specs.Script.{all_placed, placed};

use appup_file::AppupInstr;
use std::alloc::AllocError;

/// An instruction, with the application whose appup has it.
#[derive(Clone, Copy)]
pub struct PlacedInstr<'a> {
    pub app: &'a str,
    /// Its place in the entry, from 1.
    pub number: usize,
    pub instr: &'a AppupInstr,
}

/// An application of the release that a direction leads to.
#[derive(Clone, Copy)]
pub struct TargetApp<'a> {
    pub name: &'a str,
    pub vsn: &'a str,
    pub modules: &'a [String],
}

/// Appends the instructions of an application's entry.
pub fn push_entry<'a>(
    app: &'a str,
    instrs: &'a [AppupInstr],
    script: &mut Vec<PlacedInstr<'a>>,
) -> Result<(), AllocError>
    ensures { OnOk result (all_placed script.new.items
        ≡ all_placed script.old.items ++ placed app.now 1 (row_of instrs.now)) }
{
    for before in 0..instrs.len() {
        script.push(PlacedInstr {
            app,
            number: before + 1,
            instr: &instrs[before],
        })?;
    }
    Ok(())
}
