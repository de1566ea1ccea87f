//! Patterns that OTP's `re` and the crate `regex` may both take and read in different ways.
ghost use Rattle.std.specs.Prelude.{◌≡◌};
ghost use Rattle.appup_match.specs.Ambiguity.{begun, begun_unless, escaped, in_group, is_flag, class_start, first_member, is_operation, member, after, next, is_ambiguous};

// Where the next byte of a pattern stands.
#[derive(Clone, Copy)]
pub(crate) enum Place {
    // Where anything may begin.
    Open,
    // After a sign that repeats, or may end one that does.
    Repeated,
    // After a backslash.
    Escaped,
    // After `\b`.
    Boundary,
    // After `(`.
    Group,
    // After `(?`.
    GroupKind,
    // After the bracket that begins a class.
    ClassStart,
    // After that and `^`.
    ClassNegated,
    // In a class, after this byte.
    Class(u8),
    // After a backslash in a class.
    ClassEscaped,
}

// After a byte with which anything may begin.
fn begun(byte: u8) -> Place
    ensures { result ≡ begun byte }
{
    match byte {
        b'\\' => Place::Escaped,
        b'[' => Place::ClassStart,
        b'(' => Place::Group,
        b'*' | b'+' | b'?' | b'}' => Place::Repeated,
        _ => Place::Open,
    }
}

fn begun_unless(is_other: bool, byte: u8) -> Option<Place>
    ensures { result ≡ begun_unless is_other byte }
{
    if is_other { None } else { Some(begun(byte)) }
}

fn escaped(byte: u8) -> Option<Place>
    ensures { result ≡ escaped byte }
{
    match byte {
        b'<' | b'>' => None,
        b'b' => Some(Place::Boundary),
        _ => Some(Place::Open),
    }
}

fn in_group(byte: u8) -> Place
    ensures { result ≡ in_group byte }
{
    if byte == b'?' {
        Place::GroupKind
    } else {
        begun(byte)
    }
}

// Whether a group is one of flags: a letter begins it that isn't the P of a name.
fn is_flag(byte: u8) -> bool
    ensures { result ≡ is_flag byte }
{
    byte.is_ascii_alphabetic() && byte != b'P'
}

fn class_start(byte: u8) -> Option<Place>
    ensures { result ≡ class_start byte }
{
    if byte == b'^' {
        Some(Place::ClassNegated)
    } else {
        first_member(byte)
    }
}

// A bracket that would end a class stands for itself where it is the first in it.
fn first_member(byte: u8) -> Option<Place>
    ensures { result ≡ first_member byte }
{
    if byte == b']' {
        Some(Place::Class(byte))
    } else {
        member(b'[', byte)
    }
}

// Whether a byte, twice in a class, is an operation on classes.
fn is_operation(byte: u8) -> bool
    ensures { result ≡ is_operation byte }
{
    matches!(byte, b'&' | b'-' | b'~')
}

fn member(last: u8, byte: u8) -> Option<Place>
    ensures { result ≡ member last byte }
{
    match byte {
        b']' => Some(Place::Open),
        b'\\' => Some(Place::ClassEscaped),
        b'[' => None,
        _ if byte == last && is_operation(byte) => None,
        _ => Some(Place::Class(byte)),
    }
}

fn after(place: Place, byte: u8) -> Option<Place>
    ensures { result ≡ after place byte }
{
    match place {
        Place::Open => Some(begun(byte)),
        Place::Repeated => begun_unless(byte == b'+', byte),
        Place::Escaped => escaped(byte),
        Place::Boundary => begun_unless(byte == b'{', byte),
        Place::Group => Some(in_group(byte)),
        Place::GroupKind => begun_unless(is_flag(byte), byte),
        Place::ClassStart => class_start(byte),
        Place::ClassNegated => first_member(byte),
        Place::Class(last) => member(last, byte),
        Place::ClassEscaped => Some(Place::Class(b'\\')),
    }
}

// Where the byte after this one stands, or None where this one ends a form that has two readings.
fn next(place: Place, byte: u8) -> Option<Place>
    ensures { result ≡ next place byte }
{
    match byte {
        b'!'..=b'~' => after(place, byte),
        _ => None,
    }
}

// Whether a pattern has a form that has two readings.
pub(crate) fn is_ambiguous(pattern: &[u8]) -> bool
    ensures { result ≡ is_ambiguous pattern.now }
{
    let mut place = Place::Open;
    for byte in pattern {
        match next(place, *byte) {
            Some(later) => place = later,
            None => return true,
        }
    }
    false
}
