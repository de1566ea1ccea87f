//! The answer to the request of a relup.
ghost use Rattle.std.specs.Prelude.{◌≡◌, IfOk, IsErr, map, string_bytes};
ghost use Rattle.erl_term.specs.Within.{IsWithin};
ghost use Rattle.relup_file.specs.Form.{IsRelup, relup_term};
ghost use Rattle.relup_file.specs.Relup.{relup_of};
ghost use Rattle.relup_translate.specs.Fault.{FaultForm, Says};
ghost use Rattle.rel_unpack.specs.Order.{Answers};
ghost use Rattle.relup_command.specs.Answer.{AnswerAt, AnswersFile, AnswersMadeRelup, fault_line, relup_lines};

use crate::error::RelupError;
use crate::relup::make_relup_of_files;
use file_source::Files;
use rel_unpack::UnpackError;
use relup_file::{Relup, print_relup};
use relup_translate::TranslateError;
use std::alloc::{AllocError, Global};

/// What is answered to the request of a relup, as [`make_relup_of_files`] makes it: the relup in one line and `ok` in a
/// second one, or the fault of the appups in a line. An error reports the first file that isn't taken.
pub fn relup_answer<F: Files>(
    alloc: Global,
    files: &F,
    new: &str,
    ups: &[String],
    downs: &[String],
) -> Result<String, UnpackError>
    ensures answered { Answers string_bytes (AnswerAt (F.gives files.now) new.now
        (map string_bytes ups.now) (map string_bytes downs.now)) result }

    // A relup that is made can be read back from the text, within a reader's limits.
    ensures read_back { IfOk result (λ text. AnswersMadeRelup (F.gives files.now) new.now
        (map string_bytes ups.now) (map string_bytes downs.now) (string_bytes text)) }
{
    match make_relup_of_files(alloc, files, new, ups, downs) {
        Ok(relup) => Ok(relup_lines(alloc, &relup)?),
        Err(RelupError::Appups(why)) => Ok(fault_line(alloc, &why)?),
        Err(RelupError::Files(why)) => Err(why),
    }
}

fn relup_lines(alloc: Global, relup: &Relup) -> Result<String, AllocError>
    ensures lines { IfOk result (λ text. string_bytes text ≡ relup_lines (relup_of relup.now)) }
    ensures read_back { IfOk result (λ text. IsRelup (relup_of relup.now)
        → IsWithin 64 (relup_term (relup_of relup.now))
        → AnswersFile (string_bytes text) (relup_of relup.now)) }
{
    let mut text = print_relup(alloc, relup)?;
    text.push_str("\nok\n")?;
    Ok(text)
}

// The line of a fault. Out of memory has none.
fn fault_line(alloc: Global, why: &TranslateError) -> Result<String, AllocError>
    ensures reported { IfOk result (λ text.
        (f : FaultForm) → Says why.now f → string_bytes text ≡ fault_line f) }
    ensures memory { why.now ≡ TranslateError.NoMemory → IsErr result }
{
    match why {
        TranslateError::NoAppup(app) => format!(in alloc; "error relup 1 NoAppup {app}\n"),
        TranslateError::NoEntry(app, vsn) => format!(in alloc;
            "error relup 2 NoEntry {app} {vsn}\n"
        ),
        TranslateError::UnknownModule(name) => format!(in alloc;
            "error relup 3 UnknownModule {name}\n"
        ),
        TranslateError::RegexVersion(app) => format!(in alloc;
            "error relup 4 RegexVersion {app}\n"
        ),
        TranslateError::NeedsNewEmulator => String::from_str(
            alloc,
            "error relup 5 NeedsNewEmulator\n",
        ),
        TranslateError::Unsupported(app) => format!(in alloc; "error relup 6 Unsupported {app}\n"),
        TranslateError::NoMemory => Err(AllocError),
    }
}
