//! The words of a line, and the parts of a word.
ghost use Rattle.std.specs.Prelude.{◌≡◌, ◌<◌, map, IfOk};
ghost use Rattle.session_input.specs.Commands.{split_at};

use std::alloc::{AllocError, Global};

/// What stands between single separators, characters of ASCII. Two of them in a row have an empty text between them.
pub fn split_at(alloc: Global, text: &str, separator: char) -> Result<Vec<&str>, AllocError>
    requires { separator < 128 }
    ensures { IfOk result (λ parts.
        map (λ part. part.now) parts.items ≡ split_at separator text.now) }
{
    text.split(separator).collect(alloc)
}
