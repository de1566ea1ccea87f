//! A text's terms, one a line.
ghost use Rattle.std.specs.Prelude.{IfOk, IfErr, string_bytes};
ghost use Rattle.erl_term.specs.Answers.{ReportsFault};
ghost use Rattle.erl_consult.specs.Listing.{Lists};

use erl_term::{TermFault, print, read_terms};
use std::alloc::Global;

/// The terms of a text, each as it is printed, with a dot and a newline.
pub fn listing(alloc: Global, bytes: &[u8]) -> Result<String, TermFault>
    ensures listed { IfOk result (λ text. Lists bytes.now (string_bytes text)) }
    ensures fault { IfErr result (ReportsFault 64 bytes.now) }
{
    let terms = read_terms(alloc, bytes)?;
    let mut text = String::new(alloc);
    for spanned in terms.iter() {
        text.push_str(&print(alloc, &spanned.term)?)?;
        text.push_str(".\n")?;
    }
    Ok(text)
}
