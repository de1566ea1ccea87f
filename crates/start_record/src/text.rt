// The text of a start.
ghost use Rattle.std.specs.Prelude.{◌≡◌, ℕ, List, ◌∷◌, ◌++◌, length, IfSome, IsNone};
ghost use Rattle.std.specs.Str.{IsUtf8};
ghost use Rattle.start_record.specs.Text.{versions_of, AreTooLong, start_text, SpellsStart, SpellsNoStart};

use crate::Start;
use arrayvec::ArrayString;
use rel_files::text::is_version;

// Two versions, a space and a new line.
pub(crate) const MAX_TEXT: usize = 126;

// The text of a start. It grows in place, since a write takes no memory: so each part is one call with the very clause that is
// needed, where an array would want the places of its parts.
pub(crate) fn spell(start: &Start) -> ArrayString<MAX_TEXT>
    requires { AreTooLong (versions_of start.now) → ⊥ }
    ensures { result.bytes ≡ start_text (versions_of start.now) }
{
    let mut text = ArrayString::new();
    text.push_str(start.erts.as_str());
    text.push(' ');
    text.push_str(start.vsn.as_str());
    text.push('\n');
    text
}

// The versions of the runtime system and of the release that a start slot spells.
pub(crate) fn versions_in(slot: &[u8; 128]) -> Option<(&str, &str)>
    ensures found { IfSome result
        (λ v. SpellsStart slot.now (record { erts = v.0.now; vsn = v.1.now })) }
    ensures none { IsNone result → SpellsNoStart slot.now }
{
    let (erts, rest) = text_in(slot)?.split_once(' ')?;
    let vsn = rest.strip_suffix('\n')?;
    if is_version(erts) && is_version(vsn) {
        Some((erts, vsn))
    } else {
        None
    }
}

// What the length byte of a start slot counts, where that is a text.
fn text_in(slot: &[u8; 128]) -> Option<&str>
    ensures found { IfSome result
        (λ text. (rest : List ℕ) × (slot.now ≡ length text.now ∷ (text.now ++ rest))) }
    ensures none { IsNone result → (text rest : List ℕ) → IsUtf8 text
        → slot.now ≡ length text ∷ (text ++ rest) → ⊥ }
{
    let len = usize::from(slot[0]);
    str::from_utf8(slot[1..].get(..len)?).ok()
}
