//! The text of a relup between two releases of an application.

use release_relup::{MadeText, make_relup_text};
use std::alloc::{AllocError, Global};
use text_cases::{Answer, CaseFiles};

/// Appends the text of the relup between the releases A and B, with the warnings before it, or the line of the refusal. The text of a
/// case is the version that A has of the application `x` with the modules a, b and c, a blank, and the appup of its version 2 in
/// B, which also has the module n.
///
/// `up`: from A to B. `down`: back. `restart`: both, with a restart at the end of each. `erts`: both, to another runtime system.
pub(crate) fn push_made(
    alloc: Global,
    mode: &str,
    words: &str,
    answer: &mut Answer,
) -> Result<(), AllocError> {
    let (vsn, appup) = words.split_once(' ').unwrap_or((words, ""));
    let erts = if mode == "erts" { "13" } else { "14" };
    let lines = files(alloc, vsn, erts, appup)?;
    let files = CaseFiles {
        lines: lines.as_bytes(),
    };
    let mut old = Vec::new(alloc);
    old.push(String::from_str(alloc, "old.rel")?)?;
    let all = old.as_slice();
    let ups = if mode == "down" { &[] } else { all };
    let downs = if mode == "up" { &[] } else { all };
    match make_relup_text(alloc, &files, "new.rel", ups, downs, mode == "restart") {
        Ok(made) => push_text(&made, answer),
        Err(refusal) => answer.push_made(&refusal.line(alloc)),
    }
    Ok(())
}

fn push_text(made: &MadeText, answer: &mut Answer) {
    for warning in &made.warnings {
        answer.push_after("warning ", warning.as_str());
        answer.push("; ");
    }
    answer.push(made.text.as_str());
}

// The files of both releases, a line for each.
fn files(alloc: Global, vsn: &str, erts: &str, appup: &str) -> Result<String, AllocError> {
    let mut lines = String::new(alloc);
    for text in [
        "old.rel {release,{\"r\",\"A\"},{erts,\"",
        erts,
        "\"},[{x,\"",
        vsn,
        "\"}]}.\nnew.rel {release,{\"r\",\"B\"},{erts,\"14\"},[{x,\"2\"}]}.\nlib/x-",
        vsn,
        "/ebin/x.app {application,x,[{vsn,\"",
        vsn,
        "\"},{modules,[a,b,c]}]}.\nlib/x-2/ebin/x.app {application,x,[{vsn,\"2\"},{modules,[a,b,c,n]}]}.\nlib/x-2/ebin/x.appup ",
        appup,
    ] {
        lines.push_str(text)?;
    }
    Ok(lines)
}
