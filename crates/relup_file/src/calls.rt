//! The calls that a script can make.
ghost use Rattle.std.specs.Prelude.{◌≡◌};
ghost use Rattle.erl_term.specs.Value.{members_of};
ghost use Rattle.relup_instruction.specs.Instruction.{call_of};
ghost use Rattle.relup_file.specs.Script.{is_app, is_start_word, is_typed_app, has_one, is_error, is_one_app_word, is_application, is_child, is_child_call, is_child_word, is_supported_call};

use erl_term::Term;
use relup_instruction::Call;

fn is_app(args: &[Term]) -> bool
    ensures { result ≡ is_app (members_of args.now) }
{
    match args.split_first() {
        Some((Term::Atom(_), rest)) => rest.split_first().is_none(),
        _ => false,
    }
}

fn is_start_word(word: &str) -> bool
    ensures { result ≡ is_start_word word.now }
{
    matches!(word, "permanent" | "transient" | "temporary")
}

fn is_typed_app(args: &[Term]) -> bool
    ensures { result ≡ is_typed_app (members_of args.now) }
{
    match args.split_first() {
        Some((Term::Atom(_), rest)) => match rest.split_first() {
            Some((Term::Atom(word), rest)) => {
                rest.split_first().is_none() && is_start_word(word.as_str())
            }
            _ => false,
        },
        _ => false,
    }
}

fn has_one(args: &[Term]) -> bool
    ensures { result ≡ has_one (members_of args.now) }
{
    match args.split_first() {
        Some((_, rest)) => rest.split_first().is_none(),
        None => false,
    }
}

// `erlang:error/1`.
pub(crate) fn is_error(call: &Call) -> bool
    ensures { result ≡ is_error (call_of call.now) }
{
    call.name.as_str() == "erlang" && call.function.as_str() == "error" && has_one(&call.args)
}

fn is_child(args: &[Term]) -> bool
    ensures { result ≡ is_child (members_of args.now) }
{
    match args.split_first() {
        Some((Term::Atom(_), rest)) => match rest.split_first() {
            Some((Term::Atom(_), rest)) => rest.split_first().is_none(),
            _ => false,
        },
        _ => false,
    }
}

fn is_child_word(word: &str) -> bool
    ensures { result ≡ is_child_word word.now }
{
    matches!(word, "terminate_child" | "delete_child" | "restart_child")
}

// `supervisor:terminate_child/2`, `delete_child/2` and `restart_child/2`.
fn is_child_call(call: &Call) -> bool
    ensures { result ≡ is_child_call (call_of call.now) }
{
    call.name.as_str() == "supervisor"
        && is_child_word(call.function.as_str())
        && is_child(&call.args)
}

fn is_one_app_word(word: &str) -> bool
    ensures { result ≡ is_one_app_word word.now }
{
    matches!(word, "start" | "stop" | "load" | "unload")
}

// `application:start/1`, `start/2`, `stop/1`, `load/1` and `unload/1`.
fn is_application(call: &Call) -> bool
    ensures { result ≡ is_application (call_of call.now) }
{
    let function = call.function.as_str();
    call.name.as_str() == "application"
        && ((is_one_app_word(function) && is_app(&call.args))
            || (function == "start" && is_typed_app(&call.args)))
}

// A call that a script can make.
pub(crate) fn is_supported_call(call: &Call) -> bool
    ensures { result ≡ is_supported_call (call_of call.now) }
{
    is_error(call) || is_application(call) || is_child_call(call)
}
