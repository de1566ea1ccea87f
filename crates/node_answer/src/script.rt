// The lines of scripts (OTP: release_handler:check_install_release/1, install_release/1).
ghost use Rattle.std.specs.Prelude.{◌≡◌, map, string_bytes, Ok, IfOk};
ghost use Rattle.erl_term.specs.Value.{value_of};
ghost use Rattle.erl_term.specs.Value.Value.{atom};
ghost use Rattle.node_upgrade.specs.Failure.{failure_of};
ghost use Rattle.rel_files.specs.Terms.{atoms_term};
ghost use Rattle.relup_file.specs.Search.{found_of};
ghost use Rattle.node_answer.specs.Lines.{checked_line, installed_text};
ghost use Rattle.node_answer.specs.Refusals.{refusal_line};
ghost use Rattle.node_answer.specs.Refusals.NodeRefusal.{must_reboot, script_refused};

use erl_term::{Term, print};
use node_upgrade::{Installed, ScriptFailure};
use proc_history::Name;
use rel_files::terms::{atom_term, text_term};
use relup_file::Found;
use std::alloc::{AllocError, Global};

/// The line of a script that is found: the version and the description of its entry.
pub fn found_line(alloc: Global, found: &Found<'_>) -> Result<String, AllocError>
    ensures { IfOk result (λ text. string_bytes text ≡ checked_line (Ok (found_of found.now))) }
{
    let other = text_term(alloc, found.other)?;
    let other = print(alloc, &other)?;
    let descr = print(alloc, found.descr)?;
    format!(in alloc; "ok {other} {descr}\n")
}

/// The line of a release that was installed: the version and the description of its script's entry, and the stale modules.
pub fn installed_line(alloc: Global, installed: &Installed) -> Result<String, AllocError>
    ensures { IfOk result (λ text. string_bytes text
        ≡ installed_text (string_bytes installed.now.other)
        (value_of installed.now.descr) installed.now.stale.items) }
{
    let other = text_term(alloc, installed.other.as_str())?;
    let other = print(alloc, &other)?;
    let descr = print(alloc, &installed.descr)?;
    let stale = names_term(alloc, installed.stale.as_slice())?;
    let stale = print(alloc, &stale)?;
    format!(in alloc; "ok {other} {descr} {stale}\n")
}

// The names of modules as a term.
fn names_term(alloc: Global, names: &[Name]) -> Result<Term, AllocError>
    ensures { IfOk result (λ term. value_of term ≡ atoms_term names.now) }
{
    Ok(Term::List(name_terms(alloc, names)?))
}

fn name_terms(alloc: Global, names: &[Name]) -> Result<Vec<Term>, AllocError>
    ensures { IfOk result (λ terms. map value_of terms.items ≡ map atom names.now) }
{
    let mut terms = Vec::new(alloc);
    for name in names {
        terms.push(atom_term(alloc, name.as_str())?)?;
    }
    Ok(terms)
}

/// The line of a script that isn't run, or fails before its point of no return.
pub fn refused_line(alloc: Global, failure: &ScriptFailure) -> Result<String, AllocError>
    ensures { IfOk result (λ text. string_bytes text
        ≡ refusal_line (script_refused (failure_of failure.now))) }
{
    let text = failure.text(alloc)?;
    format!(in alloc; "error handler 14 Refused {text}\n")
}

/// The line of a script that fails after its point of no return.
pub fn broken_line(alloc: Global, failure: &ScriptFailure) -> Result<String, AllocError>
    ensures { IfOk result (λ text. string_bytes text
        ≡ refusal_line (must_reboot (failure_of failure.now))) }
{
    let text = failure.text(alloc)?;
    format!(in alloc; "error handler 15 MustReboot {text}\n")
}
