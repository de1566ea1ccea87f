//! Atoms as text: bare, or within quotes.
ghost use Rattle.std.specs.Prelude.{◌≡◌, ◌++◌, drop, take, OnOk, string_bytes};
ghost use Rattle.std.specs.List.{list_all, list_any};
ghost use Rattle.std.specs.Str.{bytes_eq};
ghost use Rattle.erl_number.specs.Texts.{is_bare_name_byte};
ghost use Rattle.erl_term.specs.Printing.{atom_character, atom_text, has_bare_form, is_bare, reserved_words};

use std::alloc::AllocError;

// Appends an atom.
pub(super) fn print_atom(out: &mut String, name: &str) -> Result<(), AllocError>
    ensures { OnOk result (string_bytes out.new ≡ string_bytes out.old ++ atom_text name.now) }
{
    if is_bare(name) {
        return out.push_str(name);
    }
    out.push('\'')?;
    for character in name.chars() {
        print_character(out, character)?;
    }
    out.push('\'')
}

// Whether an atom needs no quotes.
fn is_bare(name: &str) -> bool
    ensures { result ≡ is_bare name.now }
{
    has_bare_form(name.as_bytes()) && !is_reserved(name)
}

// Whether a name is a small letter, and then what a bare name goes on with.
fn has_bare_form(name: &[u8]) -> bool
    ensures { result ≡ has_bare_form name.now }
{
    match name {
        [first, rest @ ..] => first.is_ascii_lowercase() && are_name_bytes(rest),
        [] => false,
    }
}

// Whether a bare name goes on with each of these bytes.
fn are_name_bytes(bytes: &[u8]) -> bool
    ensures { result ≡ list_all is_bare_name_byte bytes.now }
{
    bytes.iter().all(|byte| is_bare_name_byte(*byte))
}

// Whether a bare name goes on with a byte.
fn is_bare_name_byte(byte: u8) -> bool
    ensures { result ≡ is_bare_name_byte byte }
{
    matches!(byte, b'a'..=b'z' | b'A'..=b'Z') || matches!(byte, b'0'..=b'9' | b'_' | b'@')
}

// Whether a name is a word that is no atom without quotes. None has more bytes than `receive`.
fn is_reserved(name: &str) -> bool
    ensures { result ≡ list_any (bytes_eq name.now) reserved_words }
{
    name.len() <= 7
        && (is_reserved_a_to_b(name) || is_reserved_c_to_m(name) || is_reserved_n_to_x(name))
}

// Whether a name is one of the reserved words that begin with `a` or `b`.
fn is_reserved_a_to_b(name: &str) -> bool
    ensures { result ≡ list_any (bytes_eq name.now) (take 10 reserved_words) }
{
    matches!(
        name,
        "after" | "and" | "andalso" | "band" | "begin" | "bnot" | "bor" | "bsl" | "bsr" | "bxor"
    )
}

// Whether a name is one of those that begin with `c` to `m`.
fn is_reserved_c_to_m(name: &str) -> bool
    ensures { result ≡ list_any (bytes_eq name.now) (take 10 (drop 10 reserved_words)) }
{
    matches!(
        name,
        "case" | "catch" | "cond" | "div" | "else" | "end" | "fun" | "if" | "let" | "maybe"
    )
}

// Whether a name is one of those that begin with `n` to `x`.
fn is_reserved_n_to_x(name: &str) -> bool
    ensures { result ≡ list_any (bytes_eq name.now) (drop 20 reserved_words) }
{
    matches!(
        name,
        "not" | "of" | "or" | "orelse" | "receive" | "rem" | "try" | "when" | "xor"
    )
}

// Appends a character of an atom, within the quotes.
fn print_character(out: &mut String, character: char) -> Result<(), AllocError>
    ensures { OnOk result
        (string_bytes out.new ≡ string_bytes out.old ++ atom_character character) }
{
    match character {
        '\'' => out.push_str("\\'"),
        '\\' => out.push_str("\\\\"),
        '\0'..='\x1f' | '\x7f' => {
            let code = character as u32;
            write!(out, "\\x{{{code:X}}}")
        }
        _ => out.push(character),
    }
}
