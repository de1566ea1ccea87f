//! The relup of the options.
ghost use Rattle.std.specs.Prelude.{◌≡◌, IfOk, IfErr, map, string_bytes};
ghost use Rattle.release_relup.specs.Made.{IsMadeText, IsRefusal};
ghost use Rattle.mkrelup.specs.Exits.{IfRefused};

use crate::failure::Failure;
use crate::options::Options;
use file_source::Files;
use release_relup::{MadeText, make_relup_text};
use std::alloc::Global;

/// The text of the relup of the options, and what is warned of.
pub(crate) fn make_text<F: Files>(
    alloc: Global,
    files: &F,
    options: &Options,
) -> Result<MadeText, Failure>
    ensures made { IfOk result (λ m. IsMadeText (F.gives files.now)
        (string_bytes options.now.new) (map string_bytes options.now.ups.items)
        (map string_bytes options.now.downs.items) options.now.restart
        (string_bytes m.text) (map string_bytes m.warnings.items)) }
    ensures refused { IfErr result (IfRefused (λ why. IsRefusal (F.gives files.now)
        (string_bytes options.now.new) (map string_bytes options.now.ups.items)
        (map string_bytes options.now.downs.items) options.now.restart why)) }
{
    let made = make_relup_text(
        alloc,
        files,
        options.new.as_str(),
        options.ups.as_slice(),
        options.downs.as_slice(),
        options.restart,
    );
    match made {
        Ok(made) => Ok(made),
        Err(refusal) => Err(Failure::Refused(refusal)),
    }
}
