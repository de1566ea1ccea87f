//! Why a script isn't run.
use std::fmt::{self, Display, Formatter};

/// Why a script isn't run. An instruction is reported by its number, counted from 1 up to the last one of a word. A fault is shown
/// by its name alone.
#[derive(Clone, Copy, Debug)]
pub enum ScriptFault {
    /// The script has no point of no return.
    NoPoint,
    /// The script has more than one point of no return.
    TwoPoints,
    /// The first instruction at fault stands where it may not: on the wrong side of the point, or a `restart_emulator` that is not
    /// the last one.
    Misplaced(u32),
    /// The first instruction at fault can't be run anywhere.
    Unsupported(u32),
}

impl Display for ScriptFault {
    ghost use Rattle.std.specs.Prelude.{Some};
    ghost use Rattle.relup_file.specs.ScriptFault.{script_fault_text};

    ghost output = { λ f. Some (script_fault_text f) };

    fn fmt<W: fmt::Write>(&self, f: &mut Formatter<W>) -> fmt::Result {
        match self {
            ScriptFault::NoPoint => f.write_str("NoPoint"),
            ScriptFault::TwoPoints => f.write_str("TwoPoints"),
            ScriptFault::Misplaced(_) => f.write_str("Misplaced"),
            ScriptFault::Unsupported(_) => f.write_str("Unsupported"),
        }
    }
}

impl std::error::Error for ScriptFault {}
