//! Errors that a script raises.
ghost use Rattle.erl_term.specs.Value.{value_of};
ghost use Rattle.relup_instruction.specs.Instruction.{call_of};
ghost use Rattle.relup_file.specs.Script.{is_error};
ghost use Rattle.script_progress.specs.Fault.Cause.{no_memory, raised};
ghost use Rattle.script_progress.specs.Fault.{error_cause};
ghost use Rattle.script_progress.specs.InMemory.{cause_of};
ghost use Rattle.std.specs.Prelude.{◌≡◌, IfErr, IfOk, Some, true};

use crate::cause::failure_at_start;
use crate::{Cause, Failure};
use erl_term::Term;
use relup_instruction::Call;
use std::alloc::AllocError;

/// How a call of erlang:error/1 fails: with a copy of its term, or out of memory only where there is no copy.
pub fn raise(copy: Result<Term, AllocError>) -> Failure
    ensures copied { IfOk copy (λ term. cause_of result.cause ≡ raised (value_of term)) }
    ensures memory { IfErr copy (λ _. cause_of result.cause ≡ no_memory) }
{
    match copy {
        Ok(term) => failure_at_start(Cause::Raised(term)),
        Err(_) => failure_at_start(Cause::NoMemory),
    }
}

/// A copy of the term of a call of erlang:error/1.
pub fn error_term(call: &Call) -> Result<Term, AllocError>
    requires { is_error (call_of call.now) ≡ true }
    ensures { IfOk result (λ term.
        error_cause (call_of call.now).args ≡ Some (raised (value_of term))) }
{
    let Some(term) = call.args.first() else {
        unreachable!();
    };
    term.clone()
}
