// The lines that report versions.
ghost use Rattle.std.specs.Prelude.{◌≡◌, ℕ, ◌+◌, ◌≤◌, [], ◌++◌, codes, length, string_bytes, IfOk, IsOk};
ghost use Rattle.std.specs.String.{string_capacity, string_len};
ghost use Rattle.node_answer.specs.Lines.{ok_line};

use start_record::Start;
use std::alloc::{AllocError, Global};

/// How many bytes the line of a version has at most.
pub const MOST_LINE: usize = 66;

/// A line in which nothing stands yet. There is room in it for a version, or for why a boot is refused.
pub fn blank_line(alloc: Global) -> Result<String, AllocError>
    ensures blank { IfOk result (λ line. string_bytes line ≡ []) }
    ensures room { IfOk result (λ line. 66 ≤ string_capacity line) }
{
    String::with_capacity(alloc, MOST_LINE)
}

/// This text, and after it the line that reports a version. Where there is room for that, no memory is asked for.
pub fn append_version(text: String, vsn: &str) -> Result<String, AllocError>
    ensures appended { IfOk result (λ line.
        string_bytes line ≡ string_bytes text ++ ok_line vsn.now) }
    ensures room { string_len text + (length vsn.now + 4) ≤ string_capacity text → IsOk result }
{
    let mut line = text;
    line.push_str("ok ")?;
    line.push_str(vsn)?;
    line.push_str("\n")?;
    Ok(line)
}

/// The line that reports a start.
pub fn start_line(alloc: Global, start: &Start) -> Result<String, AllocError>
    ensures { IfOk result (λ text. string_bytes text
        ≡ ok_line (string_bytes start.now.erts ++ (codes " " ++ string_bytes start.now.vsn))) }
{
    let erts = start.erts.as_str();
    let vsn = start.vsn.as_str();
    format!(in alloc; "ok {erts} {vsn}\n")
}
